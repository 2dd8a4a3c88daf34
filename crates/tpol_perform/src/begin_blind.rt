//! A run begins blindly: without a view of the machine, on all paths of its policy.

ghost use Rattle.std.specs.Prelude.{◌≡◌, ◌≤◌, None, Some, All, IfOk, OnOk, length, replicate};
ghost use Rattle.tpol_driver.specs.Blind.{first_complete, none_tried};
ghost use Rattle.tpol_driver.specs.declared.blind_end.Tried.TheVariants.{Skipped};
ghost use Rattle.tpol_lines.specs.Runs.{blind_line};
ghost use Rattle.tpol_perform.specs.Blind.{begun_blindly, begun_by_plan, begun_on_tries, blind_plan, with_nobranch};
ghost use Rattle.tpol_perform.specs.NewRuns.{with_new_run};
ghost use Rattle.tpol_perform.specs.Performance.{with_line};
ghost use Rattle.tpol_prepare.specs.declared.manner.Way.TheVariants.{Blind};
ghost use Rattle.tpol_prepare.specs.Manner.{way_of};
ghost use Rattle.tpol_prepare.specs.Scenario.{IsScenarioOf, paths_named};
ghost use Rattle.tpol_runs.specs.Courses.{begun_blind};

use crate::new_run::{NewRun, run_seed};
use crate::paths::paths_named;
use crate::performance::Performance;
use std::alloc::Global;
use tpol_base::{ExactClone, NoMemory, Text};
use tpol_driver::{BlindPlan, BlindStart, Tried, Tries};
use tpol_lines::blind_line;
use tpol_prepare::Scenario;
use tpol_tree::Paths;

impl Performance {
    /// A blind run of the policy of this name begins. The call fails only where memory ran out.
    #[tactic(auto, unfolding(crate::specs::Blind::begun_blindly))]
    pub fn begin_blindly(
        &mut self,
        alloc: Global,
        scenario: &Scenario,
        policy: &str,
        run: NewRun,
    ) -> Result<(), NoMemory>
        requires scenario { IsScenarioOf self.old.setup scenario.now }
        requires blind { way_of scenario.now.manner ≡ Blind }
        requires locality { run.locality ≤ 4 }
        ensures told { OnOk result (self.new ≡ begun_blindly scenario.now policy.now run self.old) }
        ensures past { OnOk result (self.new.past ≡ self.old.past) }
        ensures setup { OnOk result (self.new.setup ≡ self.old.setup) }
    {
        match paths_named(alloc, scenario, policy) {
            Ok(paths) => self.begin_on_paths(alloc, scenario, policy, paths, run),
            Err(NoMemory) => {
                drop(run);
                Err(NoMemory)
            }
        }
    }

    // The same on these paths.
    fn begin_on_paths(
        &mut self,
        alloc: Global,
        scenario: &Scenario,
        policy: &str,
        paths: Paths,
        run: NewRun,
    ) -> Result<(), NoMemory>
        requires few { length paths ≤ 64 }
        requires short { All (λ path. length path.moves ≤ 512) paths }
        requires locality { run.locality ≤ 4 }
        ensures told { OnOk result (self.new
            ≡ begun_by_plan policy.now run (blind_plan scenario.now paths run) self.old) }
        ensures past { OnOk result (self.new.past ≡ self.old.past) }
        ensures setup { OnOk result (self.new.setup ≡ self.old.setup) }
    {
        let (number, client, locality) = (run.number, run.client, run.locality);
        let plan = blind_plan(scenario, paths, run)?;
        match self.print_blind(alloc, number) {
            Ok(()) => self.begin_tries(alloc, number, client, locality, policy, plan),
            Err(NoMemory) => {
                drop(plan);
                Err(NoMemory)
            }
        }
    }

    fn print_blind(&mut self, alloc: Global, number: u16) -> Result<(), NoMemory>
        ensures { OnOk result (self.new ≡ with_line (blind_line number) self.old) }
    {
        let line = blind_line(alloc, number)?;
        self.print(line.as_str())
    }

    // The run of a number, which a client sends from a locality, begins with this plan; where no path can be tried it
    // is over at once.
    fn begin_tries(
        &mut self,
        alloc: Global,
        number: u16,
        client: u32,
        locality: u8,
        policy: &str,
        plan: BlindPlan,
    ) -> Result<(), NoMemory>
        requires few { length plan.paths ≤ 64 }
        requires short { All (λ path. length path.moves ≤ 512) plan.paths }
        requires locality { locality ≤ 4 }
        ensures told { OnOk result (self.new
            ≡ begun_on_tries number (begun_blind client locality policy.now plan) plan
            (first_complete plan) self.old) }
        ensures past { OnOk result (self.new.past ≡ self.old.past) }
        ensures setup { OnOk result (self.new.setup ≡ self.old.setup) }
    {
        match plan.first() {
            None => {
                let begun = self.begin_untried(alloc, number, &plan);
                drop(plan);
                begun
            }
            Some(_) => self.begin_trying(alloc, number, client, locality, policy, plan),
        }
    }

    // The run begins on no path: each is skipped.
    fn begin_untried(
        &mut self,
        alloc: Global,
        number: u16,
        plan: &BlindPlan,
    ) -> Result<(), NoMemory>
        requires few { length plan.now.paths ≤ 64 }
        ensures told { OnOk result (self.new
            ≡ with_nobranch number plan.now.paths (none_tried plan.now)
            (with_new_run number None self.old)) }
        ensures past { OnOk result (self.new.past ≡ self.old.past) }
        ensures setup { OnOk result (self.new.setup ≡ self.old.setup) }
    {
        self.runs.begin_without_path(number)?;
        let tries = untried(alloc, plan.paths.len())?;
        let paths = plan.paths.as_slice();
        let printed = self.print_nobranch(alloc, number, paths, tries.as_slice());
        drop(tries);
        printed
    }

    // One more run, which tries the paths of this plan.
    fn begin_trying(
        &mut self,
        alloc: Global,
        number: u16,
        client: u32,
        locality: u8,
        policy: &str,
        plan: BlindPlan,
    ) -> Result<(), NoMemory>
        requires few { length plan.paths ≤ 64 }
        requires short { All (λ path. length path.moves ≤ 512) plan.paths }
        requires locality { locality ≤ 4 }
        ensures { OnOk result (self.new
            ≡ with_new_run number (Some (begun_blind client locality policy.now plan)) self.old) }
    {
        match BlindStart::new(alloc, plan) {
            Ok(start) => match Text::from_str(alloc, policy) {
                Ok(policy) => self
                    .runs
                    .begin_blind(number, client, locality, policy, start),
                Err(NoMemory) => {
                    drop(start);
                    Err(NoMemory)
                }
            },
            Err((plan, NoMemory)) => {
                drop(plan);
                Err(NoMemory)
            }
        }
    }
}

// What a blind run on these paths is to do.
fn blind_plan(scenario: &Scenario, paths: Paths, run: NewRun) -> Result<BlindPlan, NoMemory>
    ensures { IfOk result (λ plan. plan ≡ blind_plan scenario.now paths run) }
{
    match scenario.directory.exact_clone() {
        Ok(directory) => {
            let NewRun {
                number,
                goal,
                grants,
                ..
            } = run;
            Ok(BlindPlan {
                paths,
                goal,
                grants,
                directory,
                nonce_seed: run_seed(&scenario.seed, number),
            })
        }
        Err(NoMemory) => {
            drop(paths);
            drop(run);
            Err(NoMemory)
        }
    }
}

// So many paths of which none is tried.
fn untried(alloc: Global, count: usize) -> Result<Tries, NoMemory>
    ensures { IfOk result (λ tries. tries ≡ replicate count Skipped) }
{
    Ok(Tries::from_vec(vec![in alloc; Tried::Skipped; count]?))
}
