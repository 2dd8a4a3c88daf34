//! The commands of moves.

ghost use Rattle.std.specs.Prelude.{◌≡◌, IfOk};
ghost use Rattle.tpol_driver.specs.Codes.{code_of_move};
ghost use Rattle.tpol_driver.specs.Commands.{command_of_move};

use crate::commands::{Means, assertions, policy_authorize, policy_authorize_nv};
use std::alloc::Global;
use tpol_base::{CommandCode, NoMemory};
use tpol_tree::Move;
use tpol_wire::{Command, Ticket};

/// The next command of a move. An approval by a key has two: with no ticket VerifySignature, and with the
/// ticket of that PolicyAuthorize.
pub(crate) fn command(
    alloc: Global,
    means: &Means<'_>,
    ticket: &Option<Ticket>,
    act: &Move,
) -> Result<Command, NoMemory>
    ensures { IfOk result (λ command. command
        ≡ command_of_move means.now.directory.now means.now.grants.now means.now.session.now
        ticket.now act.now) }
{
    match act {
        Move::Assert(assertion) => assertions::command(alloc, means, assertion),
        Move::Or(digests) => Ok(Command::PolicyOr {
            session: means.session.handle,
            digests: digests.clone()?,
        }),
        Move::Approve {
            key,
            policy_ref,
            approved,
            signature,
        } => policy_authorize::command(means, ticket, key, policy_ref, approved, signature),
        Move::ApproveNv { index, .. } => policy_authorize_nv::command(alloc, means, index),
    }
}

/// The code of that command.
pub(crate) fn code(ticket: &Option<Ticket>, act: &Move) -> CommandCode
    ensures { result ≡ code_of_move ticket.now act.now }
{
    match act {
        Move::Assert(assertion) => assertions::code(assertion),
        Move::Or(_) => CommandCode::PolicyOr,
        Move::Approve { .. } => match ticket {
            None => CommandCode::VerifySignature,
            Some(_) => CommandCode::PolicyAuthorize,
        },
        Move::ApproveNv { .. } => CommandCode::PolicyAuthorizeNv,
    }
}
