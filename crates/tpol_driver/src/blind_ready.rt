//! The use of a blind run's session on the goal.

ghost use Rattle.std.specs.Prelude.{◌≡◌, ◌≤◌, None, length, IfOk, IfErr};
ghost use Rattle.tpol_driver.specs.Attempts.{most_sent};
ghost use Rattle.tpol_driver.specs.Blind.{Trying, blind_hears, blind_sends, plan_at};
ghost use Rattle.tpol_driver.specs.BlindStates.{IsBlindNext, IsBlindSent};

use crate::attempt::Attempt;
use crate::blind_next::BlindNext;
use crate::goal_use;
use crate::sending::sent_bytes;
use crate::tries::after_goal;
use std::alloc::Global;
use std::marker::Model;
use tpol_base::{Blob, NoMemory};

/// A blind run whose session has all moves of one of its paths, before its use on the goal.
#[derive(Drop)]
pub struct BlindReady {
    attempt: Attempt,
}

impl Model for BlindReady {
    ghost use Rattle.std.specs.Prelude.{◌≤◌, None, length};
    ghost use Rattle.tpol_driver.specs.Blind.{BlindDriving, Trying, plan_at};
    ghost use Rattle.tpol_driver.specs.Attempts.{most_sent};

    ghost Value = { BlindDriving };

    ghost view = { λ r. record { plan = r.attempt.plan; standing = Trying r.attempt.session r.attempt.sent r.attempt.place None (length (plan_at r.attempt.plan r.attempt.place).path.moves) r.attempt.tries } };

    ghost invariant = { λ r. r.attempt.sent ≤ most_sent r.attempt.place (length (plan_at r.attempt.plan r.attempt.place).path.moves) None };
}

impl BlindReady {
    pub(crate) fn new(attempt: Attempt) -> BlindReady
        requires { attempt.sent ≤ most_sent attempt.place
            (length (plan_at attempt.plan attempt.place).path.moves) None }
        ensures { result ≡ record {
          plan = attempt.plan;
          standing = Trying attempt.session attempt.sent attempt.place None
              (length (plan_at attempt.plan attempt.place).path.moves) attempt.tries;
        } }
    {
        BlindReady { attempt }
    }

    /// The next command: the goal's, authorized by the session with continueSession clear.
    pub fn next(&self, alloc: Global) -> Result<Blob, NoMemory>
        ensures sends { IfOk result (IsBlindSent (blind_sends self.now.plan self.now.standing)) }
    {
        let plan = self.attempt.plan.along(self.attempt.place);
        let command = goal_use::command(alloc, &plan, &self.attempt.session, self.attempt.sent)?;
        sent_bytes(alloc, command)
    }

    /// Goes on with the reply. With `NoMemory` the state comes back unchanged.
    pub fn take(self, alloc: Global, reply: &[u8]) -> Result<BlindNext, (BlindReady, NoMemory)>
        ensures next { IfOk result
            (IsBlindNext self.plan (blind_hears self.plan self.standing reply.now)) }
        ensures back { IfErr result (λ refused. refused.0 ≡ self) }
    {
        let plan = self.attempt.plan.along(self.attempt.place);
        match goal_use::hear(alloc, &plan, self.attempt.sent, reply) {
            Ok(end) => {
                let BlindReady { attempt } = self;
                Ok(after_goal(attempt, end))
            }
            Err(no_memory) => Err((self, no_memory)),
        }
    }
}
