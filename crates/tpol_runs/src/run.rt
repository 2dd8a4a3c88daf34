//! A run that is under way.

ghost use Rattle.std.specs.Prelude.{◌≡◌, ◌≤◌, Some, false, length, true, IfOk, IfErr, OnErr, ℕ};
ghost use Rattle.tpol_runs.specs.Courses.{begun, begun_blind, run_after, sent_by};
ghost use Rattle.tpol_runs.specs.declared.after.After.TheVariants.{Goes};

use crate::after::After;
use crate::blind_state::BlindState;
use crate::driver_state::{Behind, DriverState};
use crate::path_driver::PathDriver;
use crate::sent::Sent;
use std::alloc::Global;
use std::marker::Model;
use tpol_base::{NoMemory, Text};
use tpol_driver::{BlindStart, Plan};

/// A run that is not over. Contracts see the client that sends its commands, from which locality, and the driver.
#[derive(Drop)]
pub struct Run {
    client: u32,
    locality: u8,
    driver: DriverState,
}

impl Model for Run {
    ghost use Rattle.tpol_runs.specs.Underway.{Underway};
    ghost use Rattle.tpol_runs.specs.Drivers.{driver_of};

    ghost Value = { Underway };

    ghost view = { λ r. record { client = r.client; locality = r.locality; driver = driver_of r.driver } };

    ghost use Rattle.std.specs.Prelude.{◌≤◌};

    ghost invariant = { λ r. r.locality ≤ 4 };
}

impl Run {
    /// A run of a plan before its first command.
    pub fn new(alloc: Global, client: u32, locality: u8, plan: Plan) -> Run
        requires moves { length plan.path.moves ≤ 512 }
        requires locality { locality ≤ 4 }
        ensures { result ≡ begun client locality plan }
    {
        Run {
            client,
            locality,
            driver: DriverState::Sighted(PathDriver::new(alloc, plan)),
        }
    }

    /// A blind run on the paths of the policy of this name, before its first command.
    pub fn blind(client: u32, locality: u8, policy: Text, start: BlindStart) -> Run
        requires locality { locality ≤ 4 }
        ensures { result ≡ begun_blind client locality policy start.plan }
    {
        Run {
            client,
            locality,
            driver: DriverState::Blind(policy, BlindState::Start(start)),
        }
    }

    /// The next command. It fails only where memory ran out.
    pub fn next(&self, alloc: Global) -> Result<Sent, NoMemory>
        ensures sent { IfOk result (λ sent. sent_by self.now ≡ Some sent) }
        ensures locality { IfOk result (λ sent. sent.locality ≤ 4) }
    {
        let buffer = self.driver.next(alloc)?;
        Ok(Sent {
            client: self.client,
            locality: self.locality,
            buffer,
        })
    }

    /// Goes on with a reply that comes at this reset count of the machine. With `NoMemory` the run comes back unchanged.
    pub fn take(
        self,
        alloc: Global,
        reset_count: u32,
        reply: &[u8],
    ) -> Result<After, (Run, NoMemory)>
        ensures after { IfOk result (λ after. after ≡ run_after self reset_count reply.now) }
        ensures back { IfErr result (λ refused. refused.0 ≡ self) }
    {
        let Run {
            client,
            locality,
            driver,
        } = self;
        match driver.take(alloc, reset_count, reply) {
            Ok(Behind::Goes(driver)) => Ok(After::Goes(Run {
                client,
                locality,
                driver,
            })),
            Ok(Behind::Ends(ended)) => Ok(After::Ends(ended)),
            Err((driver, no_memory)) => {
                let run = Run {
                    client,
                    locality,
                    driver,
                };
                Err((run, no_memory))
            }
        }
    }

    // Goes on with the reply in place, where the run is on one path and `Asserting::step` of its driver does so.
    // Answers whether it did; where not, and after `NoMemory`, nothing has changed, and `take` goes on.
    pub(crate) fn step(&mut self, alloc: Global, reply: &[u8]) -> Result<bool, NoMemory>
        ensures goes { IfOk result (λ stepped. stepped ≡ true → (reset_count : ℕ)
            → run_after self.old reset_count reply.now ≡ Goes self.new) }
        ensures same { IfOk result (λ stepped. stepped ≡ false → self.new ≡ self.old) }
        ensures err { OnErr result (self.new ≡ self.old) }
    {
        self.driver.step(alloc, reply)
    }
}
