//! A scene of one run.

ghost use Rattle.std.specs.Prelude.{◌≡◌, ◌≤◌, IfOk, OnOk, length};
ghost use Rattle.tpol_generate.specs.FirstRun.{performed_run};
ghost use Rattle.tpol_name.specs.Setups.{IsSetup};
ghost use Rattle.tpol_perform.specs.Performance.{start_of};
ghost use Rattle.tpol_prepare.specs.Scenario.{IsScenarioOf};

use std::alloc::Global;
use tpol_base::NoMemory;
use tpol_name::Setup;
use tpol_perform::{NewRun, Performance};
use tpol_prepare::Scenario;

/// A machine starts from this setup, a run on the policy of this name begins, and run 1 goes to its end. It fails only
/// where memory ran out.
pub fn perform_run(
    alloc: Global,
    setup: Setup,
    scenario: &Scenario,
    policy: &str,
    run: NewRun,
) -> Result<Performance, NoMemory>
    requires setup { IsSetup setup }
    requires scenario { IsScenarioOf setup scenario.now }
    requires locality { run.locality ≤ 4 }
    ensures told { IfOk result (λ performance. performance
        ≡ performed_run scenario.now policy.now run (start_of setup)) }
    ensures few { IfOk result (λ performance. length performance.past ≤ 65700) }
{
    let mut performance = match Performance::new(alloc, setup) {
        Ok(performance) => performance,
        Err(NoMemory) => {
            drop(run);
            return Err(NoMemory);
        }
    };
    match run_first(alloc, &mut performance, scenario, policy, run) {
        Ok(()) => Ok(performance),
        Err(NoMemory) => {
            drop(performance);
            Err(NoMemory)
        }
    }
}

// A run on a policy begins, and run 1 goes to its end, on a machine without events.
fn run_first(
    alloc: Global,
    performance: &mut Performance,
    scenario: &Scenario,
    policy: &str,
    run: NewRun,
) -> Result<(), NoMemory>
    requires scenario { IsScenarioOf performance.old.setup scenario.now }
    requires locality { run.locality ≤ 4 }
    requires first { length performance.old.past ≡ 0 }
    ensures told { OnOk result (performance.new
        ≡ performed_run scenario.now policy.now run performance.old) }
    ensures few { OnOk result (length performance.new.past ≤ 65700) }
{
    performance.begin(alloc, scenario, policy, run)?;
    performance.turn_to_end(alloc, scenario, 1)
}
