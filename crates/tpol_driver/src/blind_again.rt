//! The PolicyRestart between two paths of a blind run.

ghost use Rattle.std.specs.Prelude.{◌≡◌, ◌≤◌, ◌*◌, IfOk, IfErr};
ghost use Rattle.tpol_driver.specs.Blind.{Again, blind_hears, blind_sends, restart_heard};
ghost use Rattle.tpol_driver.specs.BlindStates.{IsBlindNext, IsBlindSent};

use crate::answer::{Answer, read_answer};
use crate::attempt::Attempt;
use crate::blind_end::BlindEnd;
use crate::blind_next::BlindNext;
use crate::end::Stage;
use crate::sending::sent_bytes;
use crate::tries::{closing, restarted};
use std::alloc::Global;
use std::marker::Model;
use tpol_base::{Blob, CommandCode, NoMemory};
use tpol_wire::Command;

/// A blind run behind a refused path, before it begins the next one with the same session.
#[derive(Drop)]
pub struct BlindAgain {
    // With the place of the next path.
    attempt: Attempt,
}

impl Model for BlindAgain {
    ghost use Rattle.std.specs.Prelude.{◌≤◌, ◌*◌};
    ghost use Rattle.tpol_driver.specs.Blind.{BlindDriving, Again};

    ghost Value = { BlindDriving };

    ghost view = { λ a. record { plan = a.attempt.plan; standing = Again a.attempt.session a.attempt.sent a.attempt.place a.attempt.tries } };

    ghost invariant = { λ a. a.attempt.sent ≤ 1026 * a.attempt.place };
}

impl BlindAgain {
    // A blind run before the path at the attempt's place.
    pub(crate) fn new(attempt: Attempt) -> BlindAgain
        requires { attempt.sent ≤ 1026 * attempt.place }
        ensures { result ≡ record {
          plan = attempt.plan;
          standing = Again attempt.session attempt.sent attempt.place
              attempt.tries;
        } }
    {
        BlindAgain { attempt }
    }

    /// The next command: PolicyRestart of the session.
    pub fn next(&self, alloc: Global) -> Result<Blob, NoMemory>
        ensures sends { IfOk result (IsBlindSent (blind_sends self.now.plan self.now.standing)) }
    {
        let command = Command::PolicyRestart {
            session: self.attempt.session.handle,
        };
        sent_bytes(alloc, command)
    }

    /// Goes on with the reply. With `NoMemory` the state comes back unchanged.
    pub fn take(self, alloc: Global, reply: &[u8]) -> Result<BlindNext, (BlindAgain, NoMemory)>
        ensures next { IfOk result
            (IsBlindNext self.plan (blind_hears self.plan self.standing reply.now)) }
        ensures back { IfErr result (λ refused. refused.0 ≡ self) }
    {
        match read_answer(alloc, CommandCode::PolicyRestart, reply) {
            Ok(answer) => {
                let BlindAgain { attempt } = self;
                Ok(after(attempt, answer))
            }
            Err(no_memory) => Err((self, no_memory)),
        }
    }
}

// The state after this answer.
fn after(attempt: Attempt, answer: Answer) -> BlindNext
    requires { attempt.sent ≤ 1026 * attempt.place }
    ensures { IsBlindNext attempt.plan
        (restart_heard attempt.session attempt.sent attempt.place attempt.tries answer) result }
{
    match answer {
        Answer::Done(..) => restarted(attempt),
        Answer::Denied(rc) => closing(
            attempt,
            BlindEnd::Denied {
                at: Stage::Restart,
                rc,
            },
        ),
        Answer::Malformed => closing(attempt, BlindEnd::BadReply(Stage::Restart)),
    }
}
