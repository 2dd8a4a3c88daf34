//! The end of a run's session.

ghost use Rattle.std.specs.Prelude.{◌≡◌, ◌++◌, IfOk, IfErr};
ghost use Rattle.tpol_driver.specs.Driving.{Closing as StandsClosing, earned_by, hears, sends};
ghost use Rattle.tpol_driver.specs.States.{IsNext, IsSent};

use crate::end::End;
use crate::next::{Next, Over};
use crate::plan::Plan;
use crate::sending::sent_bytes;
use crate::tickets::{HeldTicket, Tickets};
use std::alloc::Global;
use std::marker::Model;
use tpol_base::{Blob, NoMemory};
use tpol_wire::Command;

/// A run whose end is known, before its session is ended.
#[derive(Drop)]
pub struct Closing {
    plan: Plan,
    session: u32,
    end: End,
    earned: Tickets,
}

impl Model for Closing {
    ghost use Rattle.tpol_driver.specs.Driving.{Driving, Closing as StandsClosing};

    ghost Value = { Driving };

    ghost view = { λ c. record { plan = c.plan; standing = StandsClosing c.session c.end; earned = c.earned } };
}

impl Closing {
    pub(crate) fn new(plan: Plan, session: u32, end: End, earned: Tickets) -> Closing
        ensures { result ≡ record
            { plan = plan; standing = StandsClosing session end; earned = earned } }
    {
        Closing {
            plan,
            session,
            end,
            earned,
        }
    }

    /// The tickets that the run has earned so far, in order.
    pub fn earned(&self) -> &[HeldTicket]
        ensures { result.now ≡ self.now.earned }
    {
        self.earned.as_slice()
    }

    /// The next command: FlushContext of the session.
    pub fn next(&self, alloc: Global) -> Result<Blob, NoMemory>
        ensures sends { IfOk result (IsSent (sends self.now.plan self.now.standing)) }
    {
        let command = Command::FlushContext {
            session: self.session,
        };
        sent_bytes(alloc, command)
    }

    /// Ends the run with the end that is known, whatever is answered. With `NoMemory` the state comes back unchanged;
    /// but no memory is taken here.
    pub fn take(self, _alloc: Global, reply: &[u8]) -> Result<Next, (Closing, NoMemory)>
        ensures next { IfOk result
            (IsNext self.plan (self.earned ++ earned_by self.plan self.standing reply.now)
            (hears self.plan self.standing reply.now)) }
        ensures back { IfErr result (λ refused. refused.0 ≡ self) }
    {
        let Closing { end, earned, .. } = self;
        Ok(Next::Over(Over { end, earned }))
    }
}
