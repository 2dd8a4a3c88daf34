//! ContextSave (TPM 2.0 Part 3, TPM2_ContextSave).

ghost use Rattle.std.specs.Prelude.{◌≡◌, None};
ghost use Rattle.tpol_wire.specs.declared.command.Command.TheVariants as commands;
ghost use Rattle.tpm_rules.specs.Rule.{Obeys};
ghost use Rattle.tpm_engine.specs.SessionCommands as spec;
ghost use Rattle.tpm_engine.specs.Tables.{with_saved};

use crate::Tables;
use tpm_rules::unless;
use tpm_world::context_mac;
use tpol_base::Rc;
use tpol_base::response_code::REFERENCE_H0;
use tpol_wire::Reply;

// That the session is live (TPM_RC_REFERENCE_H0).
pub fn rule(tables: &Tables, session: u32) -> Result<(), Rc>
    ensures rule { Obeys result (spec.live_rule tables.now session) }
{
    unless(tables.sessions.find(session).is_some(), REFERENCE_H0)
}

// The context: the number of the event as its sequence, the handle, and their HMAC under the machine's proof.
pub fn reply(tables: &Tables, number: u32, session: u32) -> Reply
    ensures reply { result ≡ spec.session_reply tables.now number (commands.ContextSave session) }
{
    let sequence = number as u64;
    Reply::ContextSave {
        sequence,
        session,
        digest: context_mac(&tables.world.proof(), sequence, session),
    }
}

// The session is saved under the number of the event.
pub fn carry_out(tables: &mut Tables, number: u32, session: u32)
    requires rule { spec.live_rule tables.old session ≡ None }
    ensures tables { tables.new ≡ with_saved tables.old session number }
{
    tables
        .saved
        .save(&mut tables.sessions, session, number as u64);
}
