//! ContextLoad (TPM 2.0 Part 3, TPM2_ContextLoad).

ghost use Rattle.std.specs.Prelude.{◌≡◌, true};
ghost use Rattle.tpm_context.specs.Saved.{has_sequence};
ghost use Rattle.tpm_rules.specs.Rule.{Obeys};
ghost use Rattle.tpm_session.specs.Slots.{content_at};
ghost use Rattle.tpm_engine.specs.SessionCommands as spec;
ghost use Rattle.tpm_engine.specs.Tables.{with_loaded};

use crate::Tables;
use tpm_rules::unless;
use tpm_world::context_mac;
use tpol_base::response_code::{HANDLE, INTEGRITY, of_parameter};
use tpol_base::{Digest32, Rc};

// That the context is one of this machine (TPM_RC_INTEGRITY, parameter 1), and that its session is saved under its
// sequence (TPM_RC_HANDLE, parameter 1).
pub fn rule(tables: &Tables, sequence: u64, session: u32, digest: &Digest32) -> Result<(), Rc>
    ensures rule { Obeys result (spec.load_rule tables.now sequence session digest.now) }
{
    let expected = context_mac(&tables.world.proof(), sequence, session);
    unless(*digest == expected, INTEGRITY + of_parameter(1))?;
    unless(
        tables.saved.is_saved_as(session, sequence),
        HANDLE + of_parameter(1),
    )
}

// The session is live again, as it was.
pub fn carry_out(tables: &mut Tables, sequence: u64, session: u32)
    requires saved { has_sequence (content_at tables.old.saved session) sequence ≡ true }
    ensures tables { tables.new ≡ with_loaded tables.old session }
{
    tables.saved.load(&mut tables.sessions, session, sequence);
}
