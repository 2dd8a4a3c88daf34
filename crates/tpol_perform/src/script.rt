//! The events of a script, one after another.

ghost use Rattle.std.specs.Prelude.{◌≡◌, ◌+◌, ◌^◌, ◌<◌, ◌≤◌, All, IfOk, IfSome, OnOk, length};
ghost use Rattle.tpm_engine.specs.Views.{time_of};
ghost use Rattle.tpol_name.specs.Setups.{IsSetup};
ghost use Rattle.tpol_perform.specs.NewRuns.{new_run};
ghost use Rattle.tpol_perform.specs.Performance.{start_of};
ghost use Rattle.tpol_perform.specs.Script.{all_happened, happened, performed, turn_told};
ghost use Rattle.tpol_prepare.specs.Scenario.{CanHappen, IsScenarioOf};

use crate::new_run::NewRun;
use crate::performance::Performance;
use std::alloc::Global;
use tpol_base::{ExactClone, NoMemory};
use tpol_goal::Goal;
use tpol_name::Setup;
use tpol_prepare::{Scenario, StagedScene};
use tpol_scene::ScriptEvent;

/// Carries out a scene to its end. It fails only where memory ran out.
#[tactic(auto, unfolding(crate::specs::Script::performed))]
pub fn perform(alloc: Global, staged: StagedScene) -> Result<Performance, NoMemory>
    requires setup { IsSetup staged.setup }
    requires scenario { IsScenarioOf staged.setup staged.scenario }
    requires script { All CanHappen staged.script }
    requires few { length staged.script ≤ 4096 }
    ensures { IfOk result (λ performance. performance ≡ performed staged) }
{
    let StagedScene {
        setup,
        scenario,
        script,
    } = staged;
    let performance = perform_script(alloc, setup, &scenario, script.as_slice());
    drop(scenario);
    drop(script);
    performance
}

// A machine starts from this setup, and all events of a script happen.
fn perform_script(
    alloc: Global,
    setup: Setup,
    scenario: &Scenario,
    script: &[ScriptEvent],
) -> Result<Performance, NoMemory>
    requires setup { IsSetup setup }
    requires scenario { IsScenarioOf setup scenario.now }
    requires script { All CanHappen script.now }
    requires few { length script.now ≤ 4096 }
    ensures { IfOk result (λ performance. performance
        ≡ all_happened scenario.now script.now (start_of setup)) }
{
    let mut performance = Performance::new(alloc, setup)?;
    match performance.carry_out(alloc, scenario, script) {
        Ok(()) => Ok(performance),
        Err(NoMemory) => {
            drop(performance);
            Err(NoMemory)
        }
    }
}

impl Performance {
    // All events of a script happen.
    #[tactic(auto, unfolding(crate::specs::Script::all_happened))]
    fn carry_out(
        &mut self,
        alloc: Global,
        scenario: &Scenario,
        script: &[ScriptEvent],
    ) -> Result<(), NoMemory>
        requires scenario { IsScenarioOf self.old.setup scenario.now }
        requires script { All CanHappen script.now }
        requires few { length script.now ≤ 4096 }
        requires first { length self.old.past ≡ 0 }
        requires early { time_of self.old.setup self.old.past ≤ 2 ^ 62 }
        ensures { OnOk result (self.new ≡ all_happened scenario.now script.now self.old) }
    {
        for event in script {
            self.happen(alloc, scenario, event)?;
        }
        Ok(())
    }

    /// An event of a script happens. The call fails only where memory ran out.
    pub fn happen(
        &mut self,
        alloc: Global,
        scenario: &Scenario,
        event: &ScriptEvent,
    ) -> Result<(), NoMemory>
        requires scenario { IsScenarioOf self.old.setup scenario.now }
        requires event { CanHappen event.now }
        requires few { length self.old.past < 2 ^ 30 }
        requires early { time_of self.old.setup self.old.past + 2 ^ 32 ≤ 2 ^ 63 }
        ensures told { OnOk result (self.new ≡ happened scenario.now event.now self.old) }
        ensures setup { OnOk result (self.new.setup ≡ self.old.setup) }
        ensures few { OnOk result (length self.new.past ≤ length self.old.past + 65700) }
        ensures early { OnOk result (time_of self.new.setup self.new.past
            ≤ time_of self.old.setup self.old.past + 2 ^ 32) }
    {
        match event {
            ScriptEvent::Command {
                client,
                locality,
                buffer,
            } => {
                self.command(alloc, scenario, *client, *locality, buffer.as_slice())?;
                Ok(())
            }
            ScriptEvent::Begin {
                run,
                client,
                locality,
                policy,
                place: _,
                goal,
            } => {
                let run = scripted_run(alloc, scenario, *run, *client, *locality, goal)?;
                self.begin(alloc, scenario, policy.as_str(), run)
            }
            ScriptEvent::Turn { run, times } => self.turn_run(alloc, scenario, *run, *times),
            ScriptEvent::Time(ms) => self.pass_time(alloc, *ms),
            ScriptEvent::Presence(on) => self.set_presence(alloc, *on),
            ScriptEvent::Reset => self.reset(alloc),
        }
    }

    // A run has so many turns, or turns to its end.
    fn turn_run(
        &mut self,
        alloc: Global,
        scenario: &Scenario,
        run: u16,
        times: Option<u16>,
    ) -> Result<(), NoMemory>
        requires scenario { IsScenarioOf self.old.setup scenario.now }
        requires times { IfSome times (λ n. n ≤ 2000) }
        requires few { length self.old.past < 2 ^ 30 }
        ensures told { OnOk result (self.new ≡ turn_told scenario.now run times self.old) }
        ensures setup { OnOk result (self.new.setup ≡ self.old.setup) }
        ensures few { OnOk result (length self.new.past ≤ length self.old.past + 65700) }
        ensures timeless { OnOk result (time_of self.new.setup self.new.past
            ≡ time_of self.old.setup self.old.past) }
    {
        match times {
            Some(times) => self.turn_times(alloc, scenario, run, times),
            None => self.turn_to_end(alloc, scenario, run),
        }
    }
}

// The run that an event of a script begins, with what its client may use.
fn scripted_run(
    alloc: Global,
    scenario: &Scenario,
    number: u16,
    client: u32,
    locality: u8,
    goal: &Goal,
) -> Result<NewRun, NoMemory>
    ensures { IfOk result (λ run. run
        ≡ new_run scenario.now.clients number client locality goal.now) }
{
    let goal = goal.exact_clone()?;
    match scenario.grants(alloc, client) {
        Ok(grants) => Ok(NewRun {
            number,
            client,
            locality,
            goal,
            grants,
        }),
        Err(NoMemory) => {
            drop(goal);
            Err(NoMemory)
        }
    }
}
