//! PolicyRestart (TPM 2.0 Part 3, TPM2_PolicyRestart).

ghost use Rattle.std.specs.Prelude.{◌≡◌, None};
ghost use Rattle.tpm_rules.specs.Rule.{Obeys};
ghost use Rattle.tpm_session.specs.Kept.{without_facts};
ghost use Rattle.tpm_engine.specs.SessionCommands as spec;
ghost use Rattle.tpm_engine.specs.Tables.{with_changed};

use crate::Tables;
use tpm_rules::unless;
use tpol_base::Rc;
use tpol_base::response_code::REFERENCE_H0;

// That the session is live (TPM_RC_REFERENCE_H0).
pub fn rule(tables: &Tables, session: u32) -> Result<(), Rc>
    ensures rule { Obeys result (spec.live_rule tables.now session) }
{
    unless(tables.sessions.find(session).is_some(), REFERENCE_H0)
}

// The session loses its facts; its start and its nonceTPM stay.
pub fn carry_out(tables: &mut Tables, session: u32)
    requires rule { spec.live_rule tables.old session ≡ None }
    ensures tables { tables.new ≡ with_changed tables.old session without_facts }
{
    tables.sessions.restart(session);
}
