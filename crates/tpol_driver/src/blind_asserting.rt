//! The moves of a path that is tried.

ghost use Rattle.std.specs.Prelude.{◌≡◌, ◌<◌, ◌≤◌, Some, length, slice_get, IfOk, IfErr};
ghost use Rattle.tpol_driver.specs.Attempts.{most_sent};
ghost use Rattle.tpol_driver.specs.Blind.{Trying, blind_hears, blind_sends, plan_at};
ghost use Rattle.tpol_driver.specs.BlindStates.{IsBlindNext, IsBlindSent};

use crate::attempt::Attempt;
use crate::blind_next::BlindNext;
use crate::sending::sent_bytes;
use crate::step::{answer, command, said};
use crate::tries::goes_on;
use std::alloc::Global;
use std::marker::Model;
use tpol_base::{Blob, NoMemory};
use tpol_tree::{Move, Path};
use tpol_wire::Ticket;

/// A blind run on one of its paths, with a move before it.
#[derive(Drop)]
pub struct BlindAsserting {
    attempt: Attempt,
    // The ticket of the approval that comes next, once it is verified.
    ticket: Option<Ticket>,
    // The count of the moves that are done.
    done: usize,
}

impl Model for BlindAsserting {
    ghost use Rattle.std.specs.Prelude.{◌<◌, ◌≤◌, length};
    ghost use Rattle.tpol_driver.specs.Blind.{BlindDriving, Trying, plan_at};
    ghost use Rattle.tpol_driver.specs.Attempts.{most_sent};

    ghost Value = { BlindDriving };

    ghost view = { λ a. record { plan = a.attempt.plan; standing = Trying a.attempt.session a.attempt.sent a.attempt.place a.ticket a.done a.attempt.tries } };

    ghost invariant = { λ a. (a.done < length (plan_at a.attempt.plan a.attempt.place).path.moves) × (a.attempt.sent ≤ most_sent a.attempt.place a.done a.ticket) };
}

impl BlindAsserting {
    // A blind run with this count of moves done.
    pub(crate) fn new(attempt: Attempt, ticket: Option<Ticket>, done: usize) -> BlindAsserting
        requires left { done < length (plan_at attempt.plan attempt.place).path.moves }
        requires few { attempt.sent ≤ most_sent attempt.place done ticket }
        ensures { result ≡ record {
          plan = attempt.plan;
          standing = Trying attempt.session attempt.sent attempt.place
              ticket done attempt.tries;
        } }
    {
        BlindAsserting {
            attempt,
            ticket,
            done,
        }
    }

    /// The next command: that of the next move. Before PolicyAuthorize it is VerifySignature.
    pub fn next(&self, alloc: Global) -> Result<Blob, NoMemory>
        ensures sends { IfOk result (IsBlindSent (blind_sends self.now.plan self.now.standing)) }
    {
        let plan = self.attempt.plan.along(self.attempt.place);
        let act = move_at(plan.path, self.done);
        let command = command(alloc, &plan, &self.attempt.session, &self.ticket, act)?;
        sent_bytes(alloc, command)
    }

    /// Goes on with the reply. With `NoMemory` the state comes back unchanged.
    pub fn take(self, alloc: Global, reply: &[u8]) -> Result<BlindNext, (BlindAsserting, NoMemory)>
        ensures next { IfOk result
            (IsBlindNext self.plan (blind_hears self.plan self.standing reply.now)) }
        ensures back { IfErr result (λ refused. refused.0 ≡ self) }
    {
        let plan = self.attempt.plan.along(self.attempt.place);
        let act = move_at(plan.path, self.done);
        match answer(alloc, plan.tickets, &self.ticket, act, reply) {
            Ok(answer) => {
                let heard = said(&self.ticket, act, self.done as u32 + 1, answer);
                let BlindAsserting { attempt, done, .. } = self;
                Ok(goes_on(attempt, done, heard))
            }
            Err(no_memory) => Err((self, no_memory)),
        }
    }
}

// The move at this place of a path, from 0.
fn move_at(path: &Path, place: usize) -> &Move
    requires { place < length path.now.moves }
    ensures { slice_get path.now.moves place ≡ Some result.now }
{
    &path.moves.as_slice()[place]
}
