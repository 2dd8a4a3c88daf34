//! A scene that is carried out, and what is told of the runs that it begins.

ghost use Rattle.std.specs.Prelude.{◌≡◌, ◌+◌, ◌^◌, ◌<◌, ◌≤◌, ◌++◌, [], All, IfOk, OnOk, length};
ghost use Rattle.tpm_engine.specs.Views.{time_of};
ghost use Rattle.tpol_name.specs.Setups.{IsSetup, IsSight};
ghost use Rattle.tpol_perform.specs.Performance.{start_of};
ghost use Rattle.tpol_perform.specs.Script.{happened};
ghost use Rattle.tpol_prepare.specs.Scenario.{CanHappen, IsScenarioOf, IsWalkable, paths_named};
ghost use Rattle.tpol_who.specs.Lines.{paths_told};
ghost use Rattle.tpol_who.specs.Who.{begin_told, event_told, events_told, scene_told};

use crate::lines::begin_line;
use crate::paths::push_paths;
use std::alloc::Global;
use tpol_base::{ExactClone, NoMemory};
use tpol_lines::Lines;
use tpol_name::{Setup, Sight};
use tpol_perform::{NewRun, Performance};
use tpol_prepare::{Scenario, StagedScene};
use tpol_scene::ScriptEvent;

/// What is told of a scene that is carried out to its end. It fails only where memory ran out.
#[tactic(auto, unfolding(crate::specs::Who::scene_told))]
pub fn tell_scene(alloc: Global, staged: StagedScene) -> Result<Lines, NoMemory>
    requires setup { IsSetup staged.setup }
    requires scenario { IsScenarioOf staged.setup staged.scenario }
    requires script { All CanHappen staged.script }
    requires few { length staged.script ≤ 4096 }
    ensures { IfOk result (λ lines. lines ≡ scene_told staged) }
{
    let StagedScene {
        setup,
        scenario,
        script,
    } = staged;
    let lines = tell_script(alloc, setup, &scenario, script.as_slice());
    drop(scenario);
    drop(script);
    lines
}

// What is told of the events of a script, on a machine that starts from this setup.
fn tell_script(
    alloc: Global,
    setup: Setup,
    scenario: &Scenario,
    script: &[ScriptEvent],
) -> Result<Lines, NoMemory>
    requires setup { IsSetup setup }
    requires scenario { IsScenarioOf setup scenario.now }
    requires script { All CanHappen script.now }
    requires few { length script.now ≤ 4096 }
    ensures { IfOk result (λ lines. lines ≡ events_told scenario.now script.now (start_of setup)) }
{
    let mut survey = Survey::new(alloc, setup)?;
    match survey.carry_out(alloc, scenario, script) {
        Ok(()) => Ok(survey.into_lines()),
        Err(NoMemory) => {
            drop(survey);
            Err(NoMemory)
        }
    }
}

// How far a scene was carried out, and the lines of the runs that were begun. After `NoMemory` nothing is said of it.
#[derive(Drop)]
struct Survey {
    performance: Performance,
    lines: Lines,
}

impl Survey {
    // Before the first event of a machine that starts from this setup.
    fn new(alloc: Global, setup: Setup) -> Result<Survey, NoMemory>
        requires { IsSetup setup }
        ensures performance { IfOk result (λ survey. survey.performance ≡ start_of setup) }
        ensures lines { IfOk result (λ survey. survey.lines ≡ []) }
    {
        Ok(Survey {
            performance: Performance::new(alloc, setup)?,
            lines: Lines::new(alloc),
        })
    }

    // The lines.
    fn into_lines(self) -> Lines
        ensures { result ≡ self.lines }
    {
        let Survey { performance, lines } = self;
        drop(performance);
        lines
    }

    // All events of a script are told and happen, on a machine without events.
    fn carry_out(
        &mut self,
        alloc: Global,
        scenario: &Scenario,
        script: &[ScriptEvent],
    ) -> Result<(), NoMemory>
        requires scenario { IsScenarioOf self.old.performance.setup scenario.now }
        requires script { All CanHappen script.now }
        requires few { length script.now ≤ 4096 }
        requires first { length self.old.performance.past ≡ 0 }
        requires early { time_of self.old.performance.setup self.old.performance.past ≤ 2 ^ 62 }
        ensures { OnOk result (self.new.lines
            ≡ self.old.lines ++ events_told scenario.now script.now self.old.performance) }
    {
        for event in script {
            self.happen(alloc, scenario, event)?;
        }
        Ok(())
    }

    // An event is told, and happens.
    fn happen(
        &mut self,
        alloc: Global,
        scenario: &Scenario,
        event: &ScriptEvent,
    ) -> Result<(), NoMemory>
        requires scenario { IsScenarioOf self.old.performance.setup scenario.now }
        requires event { CanHappen event.now }
        requires few { length self.old.performance.past < 2 ^ 30 }
        requires early { time_of self.old.performance.setup self.old.performance.past + 2 ^ 32
            ≤ 2 ^ 63 }
        ensures told { OnOk result (self.new.lines
            ≡ self.old.lines ++ event_told scenario.now event.now self.old.performance) }
        ensures happened { OnOk result (self.new.performance
            ≡ happened scenario.now event.now self.old.performance) }
        ensures setup { OnOk result (self.new.performance.setup ≡ self.old.performance.setup) }
        ensures few { OnOk result (length self.new.performance.past
            ≤ length self.old.performance.past + 65700) }
        ensures early { OnOk result (time_of self.new.performance.setup self.new.performance.past
            ≤ time_of self.old.performance.setup self.old.performance.past + 2 ^ 32) }
    {
        self.tell(alloc, scenario, event)?;
        self.performance.happen(alloc, scenario, event)
    }

    // An event is told before it happens: of a begin, which paths the run can go.
    fn tell(
        &mut self,
        alloc: Global,
        scenario: &Scenario,
        event: &ScriptEvent,
    ) -> Result<(), NoMemory>
        requires scenario { IsScenarioOf self.old.performance.setup scenario.now }
        ensures told { OnOk result (self.new.lines
            ≡ self.old.lines ++ event_told scenario.now event.now self.old.performance) }
        ensures stays { OnOk result (self.new.performance ≡ self.old.performance) }
    {
        match event {
            ScriptEvent::Begin {
                run,
                client,
                locality,
                policy,
                place: _,
                goal,
            } => {
                let goal = goal.exact_clone()?;
                match scenario.grants(alloc, *client) {
                    Ok(grants) => {
                        let run = NewRun {
                            number: *run,
                            client: *client,
                            locality: *locality,
                            goal,
                            grants,
                        };
                        let told = self.tell_begin(alloc, scenario, policy.as_str(), &run);
                        drop(run);
                        told
                    }
                    Err(NoMemory) => {
                        drop(goal);
                        Err(NoMemory)
                    }
                }
            }
            ScriptEvent::Command { .. }
            | ScriptEvent::Turn { .. }
            | ScriptEvent::Time(_)
            | ScriptEvent::Presence(_)
            | ScriptEvent::Reset => Ok(()),
        }
    }

    // The line of a run of the policy of this name, and which paths it can go on what the machine shows now.
    #[tactic(auto, unfolding(crate::specs::Who::begin_told))]
    fn tell_begin(
        &mut self,
        alloc: Global,
        scenario: &Scenario,
        policy: &str,
        run: &NewRun,
    ) -> Result<(), NoMemory>
        requires scenario { IsScenarioOf self.old.performance.setup scenario.now }
        ensures told { OnOk result (self.new.lines
            ≡ self.old.lines ++ begin_told scenario.now policy.now run.now self.old.performance) }
        ensures stays { OnOk result (self.new.performance ≡ self.old.performance) }
    {
        let line = begin_line(alloc, run, policy)?;
        self.lines.push_line(line.as_str())?;
        let sight = self.performance.machine.sight(alloc)?;
        let told = self.tell_paths(alloc, scenario, policy, &sight, run);
        drop(sight);
        told
    }

    // Which paths of the policy of this name a run can go, with this view.
    #[tactic(auto, unfolding(tpol_prepare::specs::Scenario::paths_named, crate::specs::Lines::paths_told))]
    fn tell_paths(
        &mut self,
        alloc: Global,
        scenario: &Scenario,
        policy: &str,
        sight: &Sight,
        run: &NewRun,
    ) -> Result<(), NoMemory>
        requires begun { All (λ document. IsWalkable scenario.now.approvals document.closed)
            scenario.now.begun }
        requires sight { IsSight sight.now }
        ensures told { OnOk result (self.new.lines
            ≡ self.old.lines ++ paths_told sight.now run.now 1
            (paths_named scenario.now policy.now)) }
        ensures stays { OnOk result (self.new.performance ≡ self.old.performance) }
    {
        match scenario.document(policy) {
            None => Ok(()),
            Some(document) => {
                let approvals = &scenario.approvals;
                push_paths(alloc, document, approvals, sight, run, &mut self.lines)
            }
        }
    }
}
