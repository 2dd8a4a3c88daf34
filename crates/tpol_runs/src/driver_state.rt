//! The driver of a run.

ghost use Rattle.std.specs.Prelude.{◌≡◌, Some, false, true, IfErr, IfOk, OnErr, option_map, ℕ};
ghost use Rattle.tpol_driver.specs.Blind.{BlindStanding};
ghost use Rattle.tpol_driver.specs.BlindStates.{IsBlindNext};
ghost use Rattle.tpol_driver.specs.declared.blind_plan.BlindPlan.{BlindPlan as BlindPlanOf};
ghost use Rattle.tpol_runs.specs.Courses.{command_of, heard_of};
ghost use Rattle.tpol_runs.specs.Behind.{IsBehind};
ghost use Rattle.tpol_runs.specs.PathBehind.{IsPathBehind};
ghost use Rattle.tpol_runs.specs.Drivers.{driver_of};
ghost use Rattle.tpol_runs.specs.Underway.{Blind, Driven, Sighted};
ghost use Rattle.tpol_runs.specs.declared.driver_state.Behind.TheVariants.{Goes};
ghost use Rattle.tpol_wire.specs.Commands.{spelling};

use crate::blind_state::{BlindState, blind_next, blind_take};
use crate::ended::Ended;
use crate::path_behind::PathBehind;
use crate::path_driver::PathDriver;
use std::alloc::Global;
use tpol_base::{Blob, NoMemory, Text};
use tpol_driver::BlindNext;

// The driver of a run that is not over: on a path that was chosen, or on the paths of the policy of this name.
#[derive(Drop)]
pub enum DriverState {
    Sighted(PathDriver),
    Blind(Text, BlindState),
}

// A driver behind a reply: it goes on, or it is at its end.
#[derive(Drop)]
pub enum Behind {
    Goes(DriverState),
    Ends(Ended),
}

impl DriverState {
    // The driver's next command.
    pub fn next(&self, alloc: Global) -> Result<Blob, NoMemory>
        ensures { IfOk result (λ bytes. option_map spelling (command_of (driver_of self.now))
            ≡ Some bytes) }
    {
        match self {
            DriverState::Sighted(driver) => driver.next(alloc),
            DriverState::Blind(_, state) => blind_next(state, alloc),
        }
    }

    // Goes on with a reply that comes at this reset count of the machine. With `NoMemory` the driver comes back
    // unchanged.
    pub fn take(
        self,
        alloc: Global,
        reset_count: u32,
        reply: &[u8],
    ) -> Result<Behind, (DriverState, NoMemory)>
        ensures behind { IfOk result (IsBehind (heard_of (driver_of self) reset_count reply.now)) }
        ensures back { IfErr result (λ refused. refused.0 ≡ self) }
    {
        match self {
            DriverState::Sighted(driver) => match driver.take(alloc, reset_count, reply) {
                Ok(behind) => Ok(sighted_behind(behind)),
                Err((driver, no_memory)) => Err((DriverState::Sighted(driver), no_memory)),
            },
            DriverState::Blind(policy, state) => match blind_take(state, alloc, reply) {
                Ok(next) => Ok(blind_behind(policy, next)),
                Err((state, no_memory)) => Err((DriverState::Blind(policy, state), no_memory)),
            },
        }
    }

    // Goes on with the reply in place, where the driver is on one path and `Asserting::step` does so. Answers whether
    // it did; where not, and after `NoMemory`, nothing has changed, and `take` goes on.
    pub fn step(&mut self, alloc: Global, reply: &[u8]) -> Result<bool, NoMemory>
        ensures goes { IfOk result (λ stepped. stepped ≡ true → (reset_count : ℕ)
            → IsBehind (heard_of (driver_of self.old) reset_count reply.now) (Goes self.new)) }
        ensures same { IfOk result (λ stepped. stepped ≡ false → self.new ≡ self.old) }
        ensures err { OnErr result (self.new ≡ self.old) }
    {
        match self {
            DriverState::Sighted(driver) => driver.step(alloc, reply),
            DriverState::Blind(..) => Ok(false),
        }
    }
}

// A driver on one path behind a reply.
fn sighted_behind(behind: PathBehind) -> Behind
    ensures { (driven : Driven) → IsPathBehind driven behind → IsBehind (Sighted driven) result }
{
    match behind {
        PathBehind::Goes(driver) => Behind::Goes(DriverState::Sighted(driver)),
        PathBehind::Ends(ended) => Behind::Ends(ended),
    }
}

// A blind driver in its next state.
fn blind_behind(policy: Text, next: BlindNext) -> Behind
    ensures { (plan : BlindPlanOf) (standing : BlindStanding) → IsBlindNext plan standing next
        → IsBehind (Blind policy (record { plan = plan; standing = standing })) result }
{
    let state = match next {
        BlindNext::Asserting(asserting) => BlindState::Asserting(asserting),
        BlindNext::Ready(ready) => BlindState::Ready(ready),
        BlindNext::Again(again) => BlindState::Again(again),
        BlindNext::Closing(closing) => BlindState::Closing(closing),
        BlindNext::Over(over) => return Behind::Ends(Ended::Blind(policy, over.end)),
    };
    Behind::Goes(DriverState::Blind(policy, state))
}
