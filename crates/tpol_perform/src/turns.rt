//! The turns of runs.

ghost use Rattle.std.specs.Prelude.{◌≡◌, ◌+◌, ◌^◌, ◌<◌, ◌≤◌, All, Some, OnOk, length};
ghost use Rattle.tpm_engine.specs.Views.{time_of};
ghost use Rattle.tpol_lines.specs.Runs.{over_line};
ghost use Rattle.tpol_perform.specs.Performance.{with_line};
ghost use Rattle.tpol_perform.specs.Turns.{most_turns, replied, sent, turned, turned_on, turned_times, turned_to_end, with_end};
ghost use Rattle.tpol_prepare.specs.Scenario.{IsScenarioOf, IsWalkable};

use crate::performance::Performance;
use std::alloc::Global;
use tpol_base::NoMemory;
use tpol_lines::over_line;
use tpol_prepare::Scenario;
use tpol_runs::{Ended, Sent};

/// The most commands of a run behind its first: on each of 64 paths two for each of 512 moves, the goal, and one more.
const MOST_TURNS: u32 = 65664;

impl Performance {
    /// A run has so many turns. The call fails only where memory ran out.
    #[tactic(auto, using(crate::proofs::TurnSteps::turned_times_step, crate::proofs::TurnSteps::turned_times_end))]
    pub fn turn_times(
        &mut self,
        alloc: Global,
        scenario: &Scenario,
        run: u16,
        times: u16,
    ) -> Result<(), NoMemory>
        requires scenario { IsScenarioOf self.old.setup scenario.now }
        requires few { length self.old.past + times < 2 ^ 31 }
        ensures told { OnOk result (self.new ≡ turned_times scenario.now run times self.old) }
        ensures few { OnOk result (length self.new.past ≤ length self.old.past + times) }
        ensures setup { OnOk result (self.new.setup ≡ self.old.setup) }
        ensures timeless { OnOk result (time_of self.new.setup self.new.past
            ≡ time_of self.old.setup self.old.past) }
    {
        for _turn in 0..times {
            self.turn(alloc, scenario, run)?;
        }
        Ok(())
    }

    /// A run has turns to its end; where it is over it has none, and a line tells that. The call fails only where
    /// memory ran out.
    #[tactic(auto, unfolding(crate::specs::Turns::turned_to_end))]
    pub fn turn_to_end(
        &mut self,
        alloc: Global,
        scenario: &Scenario,
        run: u16,
    ) -> Result<(), NoMemory>
        requires scenario { IsScenarioOf self.old.setup scenario.now }
        requires few { length self.old.past + 65700 < 2 ^ 31 }
        ensures told { OnOk result (self.new ≡ turned_to_end scenario.now run self.old) }
        ensures few { OnOk result (length self.new.past ≤ length self.old.past + 65700) }
        ensures setup { OnOk result (self.new.setup ≡ self.old.setup) }
        ensures timeless { OnOk result (time_of self.new.setup self.new.past
            ≡ time_of self.old.setup self.old.past) }
    {
        match self.runs.next(alloc, run)? {
            None => self.print_over(alloc, run),
            Some(command) => {
                self.send(alloc, scenario, run, &command)?;
                self.turn_on(alloc, scenario, run, most_turns())
            }
        }
    }

    // Turns to the run's end, of so many at most.
    #[tactic(auto, using(crate::proofs::TurnSteps::turned_on_step, crate::proofs::TurnSteps::turned_on_over, crate::proofs::TurnSteps::turned_on_end))]
    fn turn_on(
        &mut self,
        alloc: Global,
        scenario: &Scenario,
        run: u16,
        most: u32,
    ) -> Result<(), NoMemory>
        requires scenario { IsScenarioOf self.old.setup scenario.now }
        requires few { length self.old.past + most < 2 ^ 31 }
        ensures told { OnOk result (self.new ≡ turned_on scenario.now run most self.old) }
        ensures few { OnOk result (length self.new.past ≤ length self.old.past + most) }
        ensures setup { OnOk result (self.new.setup ≡ self.old.setup) }
        ensures timeless { OnOk result (time_of self.new.setup self.new.past
            ≡ time_of self.old.setup self.old.past) }
    {
        for _turn in 0..most {
            match self.runs.next(alloc, run)? {
                None => return Ok(()),
                Some(command) => self.send(alloc, scenario, run, &command)?,
            }
        }
        Ok(())
    }

    // One turn of a run.
    #[tactic(auto, unfolding(crate::specs::Turns::turned))]
    fn turn(&mut self, alloc: Global, scenario: &Scenario, run: u16) -> Result<(), NoMemory>
        requires scenario { IsScenarioOf self.old.setup scenario.now }
        requires few { length self.old.past < 2 ^ 31 }
        ensures told { OnOk result (self.new ≡ turned scenario.now run self.old) }
        ensures few { OnOk result (length self.new.past ≤ length self.old.past + 1) }
        ensures setup { OnOk result (self.new.setup ≡ self.old.setup) }
        ensures timeless { OnOk result (time_of self.new.setup self.new.past
            ≡ time_of self.old.setup self.old.past) }
    {
        match self.runs.next(alloc, run)? {
            None => self.print_over(alloc, run),
            Some(command) => self.send(alloc, scenario, run, &command),
        }
    }

    // A run sends a command, and hears the reply.
    #[tactic(auto, unfolding(crate::specs::Turns::sent))]
    fn send(
        &mut self,
        alloc: Global,
        scenario: &Scenario,
        run: u16,
        command: &Sent,
    ) -> Result<(), NoMemory>
        requires scenario { IsScenarioOf self.old.setup scenario.now }
        requires locality { command.now.locality ≤ 4 }
        requires few { length self.old.past < 2 ^ 31 }
        ensures told { OnOk result (self.new ≡ sent scenario.now run command.now self.old) }
        ensures few { OnOk result (length self.new.past ≡ length self.old.past + 1) }
        ensures setup { OnOk result (self.new.setup ≡ self.old.setup) }
        ensures timeless { OnOk result (time_of self.new.setup self.new.past
            ≡ time_of self.old.setup self.old.past) }
    {
        let reply = self.command(
            alloc,
            scenario,
            command.client,
            command.locality,
            command.buffer.as_slice(),
        )?;
        self.reply(alloc, scenario, command.client, run, reply.as_slice())
    }

    // A run of this client hears a reply; where it comes to its end, its tickets are kept and that is told.
    #[tactic(auto, unfolding(crate::specs::Turns::replied))]
    fn reply(
        &mut self,
        alloc: Global,
        scenario: &Scenario,
        client: u32,
        run: u16,
        reply: &[u8],
    ) -> Result<(), NoMemory>
        requires begun { All (λ document. IsWalkable scenario.now.approvals document.closed)
            scenario.now.begun }
        ensures told { OnOk result (self.new ≡ replied scenario.now client run reply.now self.old) }
        ensures past { OnOk result (self.new.past ≡ self.old.past) }
        ensures setup { OnOk result (self.new.setup ≡ self.old.setup) }
    {
        let end = self.runs.take(alloc, run, self.reset_count, reply)?;
        self.end(alloc, scenario, client, run, end)
    }

    fn end(
        &mut self,
        alloc: Global,
        scenario: &Scenario,
        client: u32,
        run: u16,
        end: Option<Ended>,
    ) -> Result<(), NoMemory>
        requires begun { All (λ document. IsWalkable scenario.now.approvals document.closed)
            scenario.now.begun }
        ensures told { OnOk result (self.new ≡ with_end scenario.now client run end self.old) }
        ensures past { OnOk result (self.new.past ≡ self.old.past) }
        ensures setup { OnOk result (self.new.setup ≡ self.old.setup) }
    {
        match end {
            None => Ok(()),
            Some(Ended::Sighted { end, earned }) => {
                let kept = self.keep(scenario.directory.as_slice(), client, earned.as_slice());
                drop(earned);
                match kept {
                    Ok(()) => self.print_end_line(alloc, run, end),
                    Err(NoMemory) => {
                        drop(end);
                        Err(NoMemory)
                    }
                }
            }
            Some(Ended::Blind(policy, end)) => {
                let printed = self.print_blind_end(alloc, scenario, run, policy.as_str(), end);
                drop(policy);
                printed
            }
        }
    }

    fn print_over(&mut self, alloc: Global, run: u16) -> Result<(), NoMemory>
        ensures { OnOk result (self.new ≡ with_line (over_line run) self.old) }
    {
        let line = over_line(alloc, run)?;
        self.print(line.as_str())
    }
}

#[tactic(auto, unfolding(crate::specs::Turns::most_turns))]
fn most_turns() -> u32
    ensures told { result ≡ most_turns }
    ensures few { result ≤ 65699 }
{
    MOST_TURNS
}
