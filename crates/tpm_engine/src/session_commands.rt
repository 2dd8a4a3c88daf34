//! The commands on sessions themselves, a file a command with what it asks, what it answers, and what it does.

ghost use Rattle.std.specs.Prelude.{◌≡◌, None, true};
ghost use Rattle.tpol_wire.specs.Replies.{spell_reply};
ghost use Rattle.tpm_rules.specs.Rule.{Obeys};
ghost use Rattle.tpm_engine.specs.Deeds.{after_deed, plain_deed};
ghost use Rattle.tpm_engine.specs.Responses.{first_facts};
ghost use Rattle.tpm_engine.specs.SessionCommands as spec;

mod context_load;
mod context_save;
mod flush_context;
mod policy_get_digest;
mod policy_restart;
mod start_auth_session;

use crate::Tables;
use tpol_base::Rc;
use tpol_tree::Facts;
use tpol_wire::{Command, Reply};

// Whether it is one of these commands.
pub fn is_session_command(command: &Command) -> bool
    ensures { result ≡ spec.is_session_command command.now }
{
    match command {
        Command::StartAuthSession { .. }
        | Command::FlushContext { .. }
        | Command::ContextSave { .. }
        | Command::ContextLoad { .. }
        | Command::PolicyRestart { .. }
        | Command::PolicyGetDigest { .. } => true,
        _ => false,
    }
}

// The first rule that one of these commands breaks.
pub fn rule(tables: &Tables, command: &Command) -> Result<(), Rc>
    ensures rule { Obeys result (spec.session_rule tables.now command.now) }
{
    match command {
        Command::StartAuthSession { .. } => start_auth_session::rule(tables),
        Command::FlushContext { session } => flush_context::rule(tables, *session),
        Command::ContextSave { session } => context_save::rule(tables, *session),
        Command::ContextLoad {
            sequence,
            session,
            digest,
        } => context_load::rule(tables, *sequence, *session, digest),
        Command::PolicyRestart { session } => policy_restart::rule(tables, *session),
        Command::PolicyGetDigest { session } => policy_get_digest::rule(tables, *session),
        _ => Ok(()),
    }
}

// The reply to one of these commands.
pub fn reply(tables: &Tables, number: u32, command: &Command) -> Reply
    ensures reply { result ≡ spec.session_reply tables.now number command.now }
{
    match command {
        Command::StartAuthSession { .. } => start_auth_session::reply(tables, number),
        Command::ContextSave { session } => context_save::reply(tables, number, *session),
        Command::ContextLoad { session, .. } => Reply::ContextLoad { session: *session },
        Command::PolicyRestart { .. } => Reply::PolicyRestart,
        Command::PolicyGetDigest { session } => policy_get_digest::reply(tables, *session),
        _ => Reply::FlushContext,
    }
}

// Carries out one of them whose rules hold; `facts` are the empty ones of the session that it starts, if it
// starts one. It takes no memory.
pub fn carry_out(tables: &mut Tables, number: u32, command: &Command, facts: Option<Facts>)
    requires session { spec.is_session_command command.now ≡ true }
    requires rule { spec.session_rule tables.old command.now ≡ None }
    requires empty { facts ≡ first_facts command.now }
    ensures tables { tables.new ≡ after_deed number
        (plain_deed command.now (spell_reply
        (spec.session_reply tables.old number command.now) None)) tables.old }
{
    match command {
        Command::StartAuthSession { .. } => match facts {
            Some(facts) => start_auth_session::carry_out(tables, number, facts),
            None => unreachable!(),
        },
        Command::FlushContext { session } => flush_context::carry_out(tables, *session),
        Command::ContextSave { session } => context_save::carry_out(tables, number, *session),
        Command::ContextLoad {
            sequence,
            session,
            ..
        } => context_load::carry_out(tables, *sequence, *session),
        Command::PolicyRestart { session } => policy_restart::carry_out(tables, *session),
        _ => {}
    }
}
