//! One step on a path, which every driver shares: the command of a move, and what its reply says.

ghost use Rattle.std.specs.Prelude.{◌≡◌, IfOk};
ghost use Rattle.tpol_base.specs.CommandCode.{number_of_code};
ghost use Rattle.tpol_driver.specs.Answers.{HasWholeTicket, answer_of};
ghost use Rattle.tpol_driver.specs.Driving.{is_verification, move_heard, stage_of_move, verified};
ghost use Rattle.tpol_driver.specs.Lent.{plan_of};
ghost use Rattle.tpol_driver.specs.Tickets.{code_on_path, command_on_path};
ghost use Rattle.tpol_driver.specs.Underway.{IsVerifiedOnce};
ghost use Rattle.tpol_wire.specs.ReplyReading.{reply_reading};

use crate::answer::{Answer, read_answer};
use crate::commands::{Means, moves, policy_ticket};
use crate::end::{End, Stage};
use crate::path_plan::PathPlan;
use crate::session::Session;
use crate::tickets::{HeldTicket, ticket_for};
use std::alloc::Global;
use tpol_base::{CommandCode, NoMemory};
use tpol_tree::Move;
use tpol_wire::{Command, Reply, Ticket};

/// What the reply to a move's command says.
#[derive(Drop)]
pub(crate) enum Heard {
    /// The approval was verified: PolicyAuthorize comes next, with this ticket.
    Verified(Ticket),
    /// The move is done.
    Accepted,
    /// A run on one path ends so once its session is ended; the try of a blind run ends so.
    Failed(End),
}

/// The next command of a move: by the first ticket of the plan that stands for it, else the move's own.
pub(crate) fn command(
    alloc: Global,
    plan: &PathPlan<'_>,
    session: &Session,
    ticket: &Option<Ticket>,
    act: &Move,
) -> Result<Command, NoMemory>
    ensures { IfOk result (λ command. command
        ≡ command_on_path (plan_of plan.now) session.now ticket.now act.now) }
{
    match ticket_for(plan.tickets, act) {
        Some(held) => policy_ticket::command(alloc, session, held),
        None => {
            let means = Means {
                directory: plan.directory.as_slice(),
                grants: plan.grants,
                session,
            };
            moves::command(alloc, &means, ticket, act)
        }
    }
}

// The code of that command.
fn code(tickets: &[HeldTicket], ticket: &Option<Ticket>, act: &Move) -> CommandCode
    ensures { result ≡ code_on_path tickets.now ticket.now act.now }
{
    match ticket_for(tickets, act) {
        Some(_) => CommandCode::PolicyTicket,
        None => moves::code(ticket, act),
    }
}

/// What these bytes answer to that command.
pub(crate) fn answer(
    alloc: Global,
    tickets: &[HeldTicket],
    ticket: &Option<Ticket>,
    act: &Move,
    reply: &[u8],
) -> Result<Answer, NoMemory>
    ensures whole { IfOk result HasWholeTicket }
    ensures answer { IfOk result (λ answer. answer
        ≡ answer_of (reply_reading
        (number_of_code (code_on_path tickets.now ticket.now act.now)) reply.now)) }
{
    read_answer(alloc, code(tickets, ticket, act), reply)
}

/// What an answer says of the command of the move at this place, from 1.
pub(crate) fn said(ticket: &Option<Ticket>, act: &Move, at: u32, answer: Answer) -> Heard
    ensures once { IsVerifiedOnce ticket.now result }
    ensures heard { result ≡ move_heard ticket.now act.now at answer }
{
    match answer {
        Answer::Done(reply, _) => {
            match (ticket, act) {
                (None, Move::Approve { .. }) => verified(at, reply),
                _ => Heard::Accepted,
            }
        }
        Answer::Denied(rc) => Heard::Failed(End::Denied {
            at: stage(ticket, act, at),
            rc,
        }),
        Answer::Malformed => Heard::Failed(End::BadReply(stage(ticket, act, at))),
    }
}

fn verified(at: u32, reply: Reply) -> Heard
    ensures { result ≡ verified at reply }
{
    match reply {
        Reply::VerifySignature { ticket } => Heard::Verified(ticket),
        _ => Heard::Failed(End::BadReply(Stage::Verify(at))),
    }
}

// Whether the command is the VerifySignature before an approval by a key.
fn is_verification(ticket: &Option<Ticket>, act: &Move) -> bool
    ensures { result ≡ is_verification ticket.now act.now }
{
    match (ticket, act) {
        (None, Move::Approve { .. }) => true,
        _ => false,
    }
}

fn stage(ticket: &Option<Ticket>, act: &Move, at: u32) -> Stage
    ensures { result ≡ stage_of_move ticket.now act.now at }
{
    if is_verification(ticket, act) {
        Stage::Verify(at)
    } else {
        Stage::Move(at)
    }
}
