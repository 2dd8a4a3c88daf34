//! The use of the session on the goal.

ghost use Rattle.std.specs.Prelude.{◌≡◌, ◌++◌, length, IfOk, IfErr};
ghost use Rattle.tpol_driver.specs.Driving.{Moving, after_goal, earned_by, hears, sends};
ghost use Rattle.tpol_driver.specs.States.{IsNext, IsSent};

use crate::closing::Closing;
use crate::end::End;
use crate::goal_use;
use crate::next::{Next, Over};
use crate::plan::Plan;
use crate::sending::sent_bytes;
use crate::session::Session;
use crate::tickets::{HeldTicket, Tickets};
use std::alloc::Global;
use std::marker::Model;
use tpol_base::{Blob, NoMemory};

/// A run whose session has all moves of the path, before its use on the goal.
#[derive(Drop)]
pub struct Ready {
    plan: Plan,
    session: Session,
    // The number of the goal's command.
    sent: u32,
    earned: Tickets,
}

impl Model for Ready {
    ghost use Rattle.std.specs.Prelude.{None, length};
    ghost use Rattle.tpol_driver.specs.Driving.{Driving, Moving};

    ghost Value = { Driving };

    ghost view = { λ r. record { plan = r.plan; standing = Moving r.session r.sent None (length r.plan.path.moves); earned = r.earned } };
}

impl Ready {
    pub(crate) fn new(plan: Plan, session: Session, sent: u32, earned: Tickets) -> Ready
        ensures { result ≡ record {
          plan = plan;
          standing = Moving session sent None
              (length plan.path.moves);
          earned = earned;
        } }
    {
        Ready {
            plan,
            session,
            sent,
            earned,
        }
    }

    /// The tickets that the run has earned so far, in order.
    pub fn earned(&self) -> &[HeldTicket]
        ensures { result.now ≡ self.now.earned }
    {
        self.earned.as_slice()
    }

    /// The next command: the goal's, authorized by the session with continueSession clear.
    pub fn next(&self, alloc: Global) -> Result<Blob, NoMemory>
        ensures sends { IfOk result (IsSent (sends self.now.plan self.now.standing)) }
    {
        let command = goal_use::command(alloc, &self.plan.lent(), &self.session, self.sent)?;
        sent_bytes(alloc, command)
    }

    /// Goes on with the reply. With `NoMemory` the state comes back unchanged.
    pub fn take(self, alloc: Global, reply: &[u8]) -> Result<Next, (Ready, NoMemory)>
        ensures next { IfOk result
            (IsNext self.plan (self.earned ++ earned_by self.plan self.standing reply.now)
            (hears self.plan self.standing reply.now)) }
        ensures back { IfErr result (λ refused. refused.0 ≡ self) }
    {
        match goal_use::hear(alloc, &self.plan.lent(), self.sent, reply) {
            Ok(end) => {
                let Ready {
                    plan,
                    session,
                    earned,
                    ..
                } = self;
                Ok(after(plan, session.handle, end, earned))
            }
            Err(no_memory) => Err((self, no_memory)),
        }
    }
}

// The state after the goal's command: a served goal has ended the session.
fn after(plan: Plan, session: u32, end: End, earned: Tickets) -> Next
    ensures { IsNext plan earned (after_goal session end) result }
{
    match end {
        End::Served(bytes) => Next::Over(Over {
            end: End::Served(bytes),
            earned,
        }),
        End::Denied { at, rc } => Next::Closing(Closing::new(
            plan,
            session,
            End::Denied { at, rc },
            earned,
        )),
        End::BadReply(stage) => Next::Closing(Closing::new(
            plan,
            session,
            End::BadReply(stage),
            earned,
        )),
    }
}
