//! The moves of a path.

ghost use Rattle.std.specs.Prelude.{◌≡◌, ◌<◌, ◌≤◌, ◌+◌, ◌*◌, ◌++◌, [], Some, true, false, length, slice_get, IfOk, IfErr, OnErr};
ghost use Rattle.tpol_driver.specs.Answers.{HasWholeTicket, answer_of};
ghost use Rattle.tpol_driver.specs.Driving.{Moving, accepts_plainly, code_sent, earned_after, earned_by, goes_on, heard, hears, sends};
ghost use Rattle.tpol_driver.specs.States.{IsNext, IsSent};
ghost use Rattle.tpol_driver.specs.Underway.{is_done, is_plain, most_before};
ghost use Rattle.tpol_driver.specs.declared.next.Next.TheVariants as states;
ghost use Rattle.tpol_wire.specs.ReplyReading.{reply_reading};

use crate::answer::Answer;
use crate::closing::Closing;
use crate::next::Next;
use crate::plan::Plan;
use crate::ready::Ready;
use crate::sending::sent_bytes;
use crate::session::Session;
use crate::step::{Heard, answer, command, said};
use crate::tickets::{HeldTicket, Tickets, earn};
use std::alloc::Global;
use std::marker::Model;
use tpol_base::{Blob, NoMemory};
use tpol_tree::{Assertion, Move};
use tpol_wire::Ticket;

/// A run on its path, with a move before it.
#[derive(Drop)]
pub struct Asserting {
    plan: Plan,
    session: Session,
    // The number of the next command.
    sent: u32,
    // The ticket of the approval that comes next, once it is verified.
    ticket: Option<Ticket>,
    // The count of the moves that are done.
    done: usize,
    earned: Tickets,
}

impl Model for Asserting {
    ghost use Rattle.tpol_driver.specs.Driving.{Driving, Moving};
    ghost use Rattle.tpol_driver.specs.Underway.{IsUnderway};

    ghost Value = { Driving };

    ghost view = { λ a. record { plan = a.plan; standing = Moving a.session a.sent a.ticket a.done; earned = a.earned } };

    ghost invariant = { λ a. IsUnderway a.plan a.sent a.ticket a.done };
}

impl Asserting {
    // A run at the front of its path.
    pub(crate) fn new(plan: Plan, session: Session, earned: Tickets) -> Asserting
        requires some { 0 < length plan.path.moves }
        requires room { length plan.path.moves ≤ 512 }
        ensures { result ≡ record
            { plan = plan; standing = Moving session 1 None 0; earned = earned } }
    {
        Asserting {
            plan,
            session,
            sent: 1,
            ticket: None,
            done: 0,
            earned,
        }
    }

    /// The tickets that the run has earned so far, in order.
    pub fn earned(&self) -> &[HeldTicket]
        ensures { result.now ≡ self.now.earned }
    {
        self.earned.as_slice()
    }

    /// The next command: that of the next move, by a ticket where the plan has one that stands for it. Before
    /// PolicyAuthorize it is VerifySignature.
    pub fn next(&self, alloc: Global) -> Result<Blob, NoMemory>
        ensures sends { IfOk result (IsSent (sends self.now.plan self.now.standing)) }
    {
        let command = command(
            alloc,
            &self.plan.lent(),
            &self.session,
            &self.ticket,
            move_at(&self.plan, self.done),
        )?;
        sent_bytes(alloc, command)
    }

    /// Goes on with the reply. With `NoMemory` the state comes back unchanged.
    pub fn take(self, alloc: Global, reply: &[u8]) -> Result<Next, (Asserting, NoMemory)>
        ensures next { IfOk result
            (IsNext self.plan (self.earned ++ earned_by self.plan self.standing reply.now)
            (hears self.plan self.standing reply.now)) }
        ensures back { IfErr result (λ refused. refused.0 ≡ self) }
    {
        match self.answer(alloc, reply) {
            Ok(answer) => self.after(answer),
            Err(no_memory) => Err((self, no_memory)),
        }
    }

    /// Goes on with the reply in place, exactly where it accepts a move that is no PolicySecret, no PolicySigned and no
    /// approval by a key, and another move is behind it. Answers whether it did; where not, and after `NoMemory`, nothing
    /// has changed, and `take` goes on.
    #[tactic(auto, unfolding(crate::specs::Driving::accepts_plainly))]
    pub fn step(&mut self, alloc: Global, reply: &[u8]) -> Result<bool, NoMemory>
        ensures when { IfOk result (λ stepped. stepped
            ≡ accepts_plainly self.old.plan self.old.standing reply.now) }
        ensures next { IfOk result (λ stepped. stepped ≡ true
            → IsNext self.old.plan self.old.earned
            (hears self.old.plan self.old.standing reply.now) (states.Asserting self.new)) }
        ensures none { IfOk result (λ stepped. stepped ≡ true
            → earned_by self.old.plan self.old.standing reply.now ≡ []) }
        ensures same { IfOk result (λ stepped. stepped ≡ false → self.new ≡ self.old) }
        ensures err { OnErr result (self.new ≡ self.old) }
    {
        let steps = self.done + 1 < self.plan.path.moves.len()
            && is_plain(move_at(&self.plan, self.done))
            && is_done(self.answer(alloc, reply)?);
        if steps {
            self.sent += 1;
            self.ticket = None;
            self.done += 1;
        }
        Ok(steps)
    }

    // What these bytes answer.
    fn answer(&self, alloc: Global, reply: &[u8]) -> Result<Answer, NoMemory>
        ensures whole { IfOk result HasWholeTicket }
        ensures answer { IfOk result (λ answer. answer
            ≡ answer_of (reply_reading
            (code_sent (sends self.now.plan self.now.standing)) reply.now)) }
    {
        answer(
            alloc,
            self.plan.tickets.as_slice(),
            &self.ticket,
            move_at(&self.plan, self.done),
            reply,
        )
    }

    // The state after this answer. With `NoMemory` the state comes back unchanged.
    fn after(self, answer: Answer) -> Result<Next, (Asserting, NoMemory)>
        requires { HasWholeTicket answer }
        ensures next { IfOk result
            (IsNext self.plan (self.earned ++ earned_after self.plan self.standing answer)
            (heard self.plan self.standing answer)) }
        ensures back { IfErr result (λ refused. refused.0 ≡ self) }
    {
        let Asserting {
            plan,
            session,
            sent,
            ticket,
            done,
            mut earned,
        } = self;
        let act = move_at(&plan, done);
        match earn(&mut earned, act, &answer) {
            Ok(()) => {
                let heard = said(&ticket, act, done as u32 + 1, answer);
                Ok(goes_on(plan, session, sent, done, earned, heard))
            }
            Err(no_memory) => {
                let asserting = Asserting {
                    plan,
                    session,
                    sent,
                    ticket,
                    done,
                    earned,
                };
                Err((asserting, no_memory))
            }
        }
    }
}

// The state after what was heard of a move's command.
fn goes_on(
    plan: Plan,
    session: Session,
    sent: u32,
    done: usize,
    earned: Tickets,
    heard: Heard,
) -> Next
    requires left { done < length plan.path.moves }
    requires room { length plan.path.moves ≤ 512 }
    requires few { sent ≤ 2 * done + most_before heard }
    ensures { IsNext plan earned (goes_on session sent done heard) result }
{
    match heard {
        Heard::Verified(ticket) => Next::Asserting(Asserting {
            plan,
            session,
            sent: sent + 1,
            ticket: Some(ticket),
            done,
            earned,
        }),
        Heard::Accepted => accepted(plan, session, sent + 1, done + 1, earned),
        Heard::Failed(end) => Next::Closing(Closing::new(plan, session.handle, end, earned)),
    }
}

// The state behind a move.
fn accepted(plan: Plan, session: Session, sent: u32, done: usize, earned: Tickets) -> Next
    requires within { done ≤ length plan.path.moves }
    requires room { length plan.path.moves ≤ 512 }
    requires few { sent ≤ 2 * done + 1 }
    ensures { IsNext plan earned (Moving session sent None done) result }
{
    if done == plan.path.moves.len() {
        Next::Ready(Ready::new(plan, session, sent, earned))
    } else {
        Next::Asserting(Asserting {
            plan,
            session,
            sent,
            ticket: None,
            done,
            earned,
        })
    }
}

// Whether a move is neither verified first nor answered with a ticket.
fn is_plain(act: &Move) -> bool
    ensures { result ≡ is_plain act.now }
{
    match act {
        Move::Assert(Assertion::Secret { .. } | Assertion::Signed { .. }) => false,
        Move::Approve { .. } => false,
        _ => true,
    }
}

// Whether the command was carried out.
fn is_done(answer: Answer) -> bool
    ensures { result ≡ is_done answer }
{
    match answer {
        Answer::Done(..) => true,
        _ => false,
    }
}

// The move at this place, from 0.
fn move_at(plan: &Plan, place: usize) -> &Move
    requires { place < length plan.now.path.moves }
    ensures { slice_get plan.now.path.moves place ≡ Some result.now }
{
    &plan.path.moves.as_slice()[place]
}
