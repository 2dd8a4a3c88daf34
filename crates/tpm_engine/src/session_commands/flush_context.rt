//! FlushContext (TPM 2.0 Part 3, TPM2_FlushContext).

ghost use Rattle.std.specs.Prelude.{◌≡◌};
ghost use Rattle.tpm_rules.specs.Rule.{Obeys};
ghost use Rattle.tpm_engine.specs.SessionCommands as spec;
ghost use Rattle.tpm_engine.specs.Tables.{without};

use crate::Tables;
use tpm_rules::unless;
use tpol_base::Rc;
use tpol_base::response_code::{HANDLE, of_parameter};

// That the session is live or saved (TPM_RC_HANDLE, parameter 1).
pub fn rule(tables: &Tables, session: u32) -> Result<(), Rc>
    ensures rule { Obeys result (spec.flush_rule tables.now session) }
{
    let is_live = tables.sessions.find(session).is_some();
    unless(
        is_live || tables.saved.is_saved(session),
        HANDLE + of_parameter(1),
    )
}

// The session ends.
pub fn carry_out(tables: &mut Tables, session: u32)
    ensures tables { tables.new ≡ without tables.old session }
{
    tables.sessions.flush(session);
    tables.saved.flush(session);
}
