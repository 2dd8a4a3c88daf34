//! The policy commands, a file a command with what it asks, what it answers where the reply has fields, and what it
//! does: its session gets one more fact.

ghost use Rattle.std.specs.Prelude.{◌≡◌, ℕ, ◌<◌, ◌≤◌, ◌^◌, length, false, None, IfOk, IfSome};
ghost use Rattle.tpol_wire.specs.Commands.{FitsCommand};
ghost use Rattle.tpol_wire.specs.Handles.{is_policy_command};
ghost use Rattle.tpm_engine.specs.Facts.{moment, shown_by};
ghost use Rattle.tpm_engine.specs.PolicyCommands as spec;
ghost use Rattle.tpm_engine.specs.Responses.{kept_counter};
ghost use Rattle.tpm_policy.specs.Asserted.{with_one_more};
ghost use Rattle.tpm_rules.specs.Rule.{Obeys};
ghost use Rattle.tpm_world.specs.World.{WorldState};

mod policy_auth_value;
mod policy_authorize;
mod policy_authorize_nv;
mod policy_command_code;
mod policy_counter_timer;
mod policy_cp_hash;
mod policy_duplication_select;
mod policy_locality;
mod policy_name_hash;
mod policy_nv;
mod policy_nv_written;
mod policy_or;
mod policy_password;
mod policy_pcr;
mod policy_physical_presence;
mod policy_secret;
mod policy_signed;
mod policy_ticket;
mod ticket;

use policy_authorize::PolicyAuthorize;
use policy_nv::PolicyNv;
use policy_secret::PolicySecret;
use policy_signed::PolicySigned;
use policy_ticket::PolicyTicket;
use std::alloc::Global;
use tpm_session::Session;
use tpm_world::World;
use tpol_base::{NoMemory, Rc};
use tpol_wire::{Command, Reply};

// The first rule that a policy command breaks on its session.
pub fn rule(world: &World, session: &Session, command: &Command) -> Result<(), Rc>
    ensures rule { Obeys result (spec.policy_rule world.now session.now.state command.now) }
{
    match command {
        Command::PolicyCpHash { digest, .. } => policy_cp_hash::rule(session, digest),
        Command::PolicyNameHash { digest, .. } => policy_name_hash::rule(session, digest),
        Command::PolicyCommandCode { code, .. } => policy_command_code::rule(session, *code),
        Command::PolicyCounterTimer {
            operand,
            offset,
            operation,
            ..
        } => policy_counter_timer::rule(world, operand.as_slice(), *offset, *operation),
        Command::PolicyLocality { locality, .. } => policy_locality::rule(session, *locality),
        Command::PolicyDuplicationSelect { .. } => policy_duplication_select::rule(session),
        Command::PolicyNvWritten { written, .. } => policy_nv_written::rule(session, *written),
        Command::PolicyOr { digests, .. } => policy_or::rule(session, digests.as_slice()),
        Command::PolicyPcr { given, mask, .. } => policy_pcr::rule(world, session, *given, *mask),
        Command::PolicyNv {
            authority,
            index,
            operand,
            offset,
            operation,
            ..
        } => {
            let given = PolicyNv {
                authority: *authority,
                index: *index,
                offset: *offset,
                operation: *operation,
            };
            policy_nv::rule(world, &given, operand.as_slice())
        }
        Command::PolicyAuthorizeNv {
            authority,
            index,
            ..
        } => policy_authorize_nv::rule(world, session, *authority, *index),
        Command::PolicySigned {
            key,
            nonce,
            cp_hash,
            policy_ref,
            expiration,
            signature,
            ..
        } => {
            let given = PolicySigned {
                key: *key,
                nonce: nonce.as_slice(),
                cp_hash: *cp_hash,
                expiration: *expiration,
                signature: *signature,
            };
            policy_signed::rule(world, session, &given, policy_ref.as_slice())
        }
        Command::PolicySecret {
            entity,
            nonce,
            cp_hash,
            expiration,
            ..
        } => {
            let given = PolicySecret {
                entity: *entity,
                nonce: nonce.as_slice(),
                cp_hash: *cp_hash,
                expiration: *expiration,
            };
            policy_secret::rule(world, session, &given)
        }
        Command::PolicyTicket {
            timeout,
            cp_hash,
            policy_ref,
            key,
            ticket,
            ..
        } => {
            let given = PolicyTicket {
                timeout: *timeout,
                cp_hash: *cp_hash,
                key: *key,
                ticket,
            };
            policy_ticket::rule(world, session, &given, policy_ref.as_slice())
        }
        Command::PolicyAuthorize {
            approved,
            policy_ref,
            key,
            ticket,
            ..
        } => {
            let given = PolicyAuthorize {
                approved: *approved,
                key: *key,
                ticket,
            };
            policy_authorize::rule(world, session, &given, policy_ref.as_slice())
        }
        _ => Ok(()),
    }
}

// The reply to a policy command, on a session that started at this time.
pub fn reply(alloc: Global, world: &World, start: u64, command: &Command) -> Result<Reply, NoMemory>
    requires early { start ≤ 2 ^ 63 }
    ensures reply { IfOk result (λ reply. reply ≡ spec.policy_reply world.now start command.now) }
{
    match command {
        Command::PolicySigned {
            key,
            nonce,
            cp_hash,
            policy_ref,
            expiration,
            signature,
            ..
        } => {
            let given = PolicySigned {
                key: *key,
                nonce: nonce.as_slice(),
                cp_hash: *cp_hash,
                expiration: *expiration,
                signature: *signature,
            };
            policy_signed::reply(alloc, world, start, &given, policy_ref.as_slice())
        }
        Command::PolicySecret {
            entity,
            nonce,
            cp_hash,
            policy_ref,
            expiration,
            ..
        } => {
            let given = PolicySecret {
                entity: *entity,
                nonce: nonce.as_slice(),
                cp_hash: *cp_hash,
                expiration: *expiration,
            };
            policy_secret::reply(alloc, world, start, &given, policy_ref.as_slice())
        }
        _ => Ok(plain_reply(command)),
    }
}

// The reply to a policy command that has no fields.
fn plain_reply(command: &Command) -> Reply
    requires plain { spec.has_timeout command.now ≡ false }
    ensures reply { (world : WorldState) (start : ℕ)
        → result ≡ spec.policy_reply world start command.now }
{
    match command {
        Command::PolicyNv { .. } => Reply::PolicyNv,
        Command::PolicyCpHash { .. } => Reply::PolicyCpHash,
        Command::PolicyNameHash { .. } => Reply::PolicyNameHash,
        Command::PolicyAuthValue { .. } => Reply::PolicyAuthValue,
        Command::PolicyPassword { .. } => Reply::PolicyPassword,
        Command::PolicyPhysicalPresence { .. } => Reply::PolicyPhysicalPresence,
        Command::PolicyCommandCode { .. } => Reply::PolicyCommandCode,
        Command::PolicyCounterTimer { .. } => Reply::PolicyCounterTimer,
        Command::PolicyLocality { .. } => Reply::PolicyLocality,
        Command::PolicyPcr { .. } => Reply::PolicyPcr,
        Command::PolicyDuplicationSelect { .. } => Reply::PolicyDuplicationSelect,
        Command::PolicyNvWritten { .. } => Reply::PolicyNvWritten,
        Command::PolicyTicket { .. } => Reply::PolicyTicket,
        Command::PolicyAuthorize { .. } => Reply::PolicyAuthorize,
        Command::PolicyOr { .. } => Reply::PolicyOr,
        _ => Reply::PolicyAuthorizeNv,
    }
}

// Shows a session the fact of a policy command whose rules hold. It takes no memory.
pub fn carry_out(alloc: Global, world: &World, session: &mut Session, number: u32, command: Command)
    requires fits { FitsCommand command }
    requires room { length session.old.state.facts < 512 }
    requires rule { spec.policy_rule world.now session.old.state command ≡ None }
    ensures shown { IfSome (shown_by command) (λ shown. session.new ≡ with_one_more session.old
        (shown.1 (moment world.now number session.old.state.start session.old.state.facts))
        (kept_counter world.now command)) }
{
    match command {
        Command::PolicyCpHash { digest, .. } => policy_cp_hash::carry_out(session, number, digest),
        Command::PolicyNameHash { digest, .. } => {
            policy_name_hash::carry_out(session, number, digest)
        }
        Command::PolicyAuthValue { .. } => policy_auth_value::carry_out(session, number),
        Command::PolicyPassword { .. } => policy_password::carry_out(session, number),
        Command::PolicyPhysicalPresence { .. } => {
            policy_physical_presence::carry_out(session, number)
        }
        Command::PolicyCommandCode { code, .. } => {
            policy_command_code::carry_out(session, number, code)
        }
        Command::PolicyCounterTimer {
            operand,
            offset,
            operation,
            ..
        } => { policy_counter_timer::carry_out(world, session, number, operand, offset, operation) }
        Command::PolicyLocality { locality, .. } => {
            policy_locality::carry_out(session, number, locality)
        }
        Command::PolicyDuplicationSelect {
            object,
            parent,
            include,
            ..
        } => policy_duplication_select::carry_out(session, number, object, parent, include),
        Command::PolicyNvWritten { written, .. } => {
            policy_nv_written::carry_out(session, number, written)
        }
        Command::PolicyOr { digests, .. } => policy_or::carry_out(session, number, digests),
        Command::PolicyPcr { given, mask, .. } => {
            policy_pcr::carry_out(alloc, world, session, number, given, mask)
        }
        Command::PolicyNv {
            authority,
            index,
            operand,
            offset,
            operation,
            ..
        } => {
            let given = PolicyNv {
                authority,
                index,
                offset,
                operation,
            };
            policy_nv::carry_out(world, session, number, &given, operand)
        }
        Command::PolicyAuthorizeNv { index, .. } => {
            policy_authorize_nv::carry_out(world, session, number, index)
        }
        Command::PolicySigned {
            key,
            nonce,
            cp_hash,
            policy_ref,
            expiration,
            signature,
            ..
        } => {
            let given = PolicySigned {
                key,
                nonce: nonce.as_slice(),
                cp_hash,
                expiration,
                signature,
            };
            policy_signed::carry_out(world, session, number, &given, policy_ref)
        }
        Command::PolicySecret {
            entity,
            nonce,
            cp_hash,
            policy_ref,
            expiration,
            ..
        } => {
            let given = PolicySecret {
                entity,
                nonce: nonce.as_slice(),
                cp_hash,
                expiration,
            };
            policy_secret::carry_out(world, session, number, &given, policy_ref)
        }
        Command::PolicyTicket {
            timeout,
            cp_hash,
            policy_ref,
            key,
            ticket,
            ..
        } => {
            let given = PolicyTicket {
                timeout,
                cp_hash,
                key,
                ticket: &ticket,
            };
            policy_ticket::carry_out(world, session, number, &given, policy_ref)
        }
        Command::PolicyAuthorize {
            approved,
            policy_ref,
            key,
            ticket,
            ..
        } => {
            let given = PolicyAuthorize {
                approved,
                key,
                ticket: &ticket,
            };
            policy_authorize::carry_out(world, session, number, &given, policy_ref)
        }
        other => show_nothing(other),
    }
}

// What is no policy command shows no fact.
fn show_nothing(command: Command)
    requires other { is_policy_command command ≡ false }
    ensures none { shown_by command ≡ None }
{
    drop(command);
}
