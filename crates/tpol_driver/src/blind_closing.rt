//! The end of a blind run's session.

ghost use Rattle.std.specs.Prelude.{◌≡◌, IfOk, IfErr};
ghost use Rattle.tpol_driver.specs.Blind.{Closing, blind_hears, blind_sends};
ghost use Rattle.tpol_driver.specs.BlindStates.{IsBlindNext, IsBlindSent};

use crate::blind_end::BlindEnd;
use crate::blind_next::{BlindNext, BlindOver};
use crate::blind_plan::BlindPlan;
use crate::sending::sent_bytes;
use std::alloc::Global;
use std::marker::Model;
use tpol_base::{Blob, NoMemory};
use tpol_wire::Command;

/// A blind run whose end is known, before its session is ended.
#[derive(Drop)]
pub struct BlindClosing {
    plan: BlindPlan,
    session: u32,
    end: BlindEnd,
}

impl Model for BlindClosing {
    ghost use Rattle.tpol_driver.specs.Blind.{BlindDriving, Closing};

    ghost Value = { BlindDriving };

    ghost view = { λ c. record { plan = c.plan; standing = Closing c.session c.end } };
}

impl BlindClosing {
    pub(crate) fn new(plan: BlindPlan, session: u32, end: BlindEnd) -> BlindClosing
        ensures { result ≡ record { plan = plan; standing = Closing session end } }
    {
        BlindClosing { plan, session, end }
    }

    /// The next command: FlushContext of the session.
    pub fn next(&self, alloc: Global) -> Result<Blob, NoMemory>
        ensures sends { IfOk result (IsBlindSent (blind_sends self.now.plan self.now.standing)) }
    {
        let command = Command::FlushContext {
            session: self.session,
        };
        sent_bytes(alloc, command)
    }

    /// Ends the run with the end that is known, whatever is answered. With `NoMemory` the state comes back unchanged;
    /// but no memory is taken here.
    pub fn take(self, _alloc: Global, reply: &[u8]) -> Result<BlindNext, (BlindClosing, NoMemory)>
        ensures next { IfOk result
            (IsBlindNext self.plan (blind_hears self.plan self.standing reply.now)) }
        ensures back { IfErr result (λ refused. refused.0 ≡ self) }
    {
        let BlindClosing { end, .. } = self;
        Ok(BlindNext::Over(BlindOver { end }))
    }
}
