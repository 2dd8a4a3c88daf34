//! The driver of a run on one path, and when it earned its tickets.

ghost use Rattle.std.specs.Prelude.{◌≡◌, ◌≤◌, [], length, IfOk};
ghost use Rattle.tpol_driver.specs.Driving.{Starting, sends};
ghost use Rattle.tpol_driver.specs.States.{IsSent};

use crate::state::{State, next};
use std::alloc::Global;
use std::marker::Model;
use tpol_base::{Blob, NoMemory};
use tpol_driver::{Plan, Planned};

// The driver of a run on one path that is not at its end, and for each ticket that the run has earned the reset count
// that the machine had when it was answered.
#[derive(Drop)]
pub struct PathDriver {
    pub state: State,
    pub counts: Vec<u32>,
}

impl Model for PathDriver {
    ghost use Rattle.std.specs.Prelude.{◌≡◌, length};
    ghost use Rattle.tpol_runs.specs.State.{driven_of, driving_of};
    ghost use Rattle.tpol_runs.specs.Underway.{Driven};

    ghost Value = { Driven };

    ghost view = { λ d. driven_of d.state d.counts.items };

    ghost invariant = { λ d. length d.counts.items ≡ length (driving_of d.state).earned };
}

impl PathDriver {
    // The driver of a plan before its first command.
    pub fn new(alloc: Global, plan: Plan) -> PathDriver
        requires moves { length plan.path.moves ≤ 512 }
        ensures { result ≡ record { plan = plan; standing = Starting; earned = [] } }
    {
        PathDriver {
            state: State::Planned(Planned::new(plan)),
            counts: Vec::new(alloc),
        }
    }

    // The driver's next command.
    pub fn next(&self, alloc: Global) -> Result<Blob, NoMemory>
        ensures { IfOk result (IsSent (sends self.now.plan self.now.standing)) }
    {
        next(&self.state, alloc)
    }
}
