//! A run begins: on the first path of its policy that its client can go, or on none.

ghost use Rattle.std.specs.Prelude.{◌≡◌, ◌+◌, ◌≤◌, [], None, Some, All, IfOk, List, OnOk, length, map};
ghost use Rattle.tpol_choose.specs.Blocks.{first_block};
ghost use Rattle.tpol_digest.specs.Paths.{paths_of};
ghost use Rattle.tpol_lines.specs.PathLine.{label};
ghost use Rattle.tpol_lines.specs.Runs.{chosen_line, nobranch_line};
ghost use Rattle.tpol_name.specs.Setups.{IsSight};
ghost use Rattle.tpol_name.specs.declared.sight.Sight.{Sight as OneSight};
ghost use Rattle.tpol_perform.specs.declared.new_run.NewRun.{NewRun as OneRun};
ghost use Rattle.tpol_tree.specs.declared.path.Path.{Path as OnePath};
ghost use Rattle.tpol_tree.specs.declared.path.PathStep.{PathStep};
ghost use Rattle.tpol_perform.specs.Begin.{begun_along, begun_in_sight, begun_nowhere, begun_on, plan_along, run_begun, with_block, with_blocks};
ghost use Rattle.tpol_perform.specs.NewRuns.{with_new_run};
ghost use Rattle.tpol_perform.specs.Performance.{with_line};
ghost use Rattle.tpol_perform.specs.Tickets.{tickets_given};
ghost use Rattle.tpol_prepare.specs.Manner.{way_of};
ghost use Rattle.tpol_prepare.specs.declared.scenario.Scenario.{Scenario as OneScenario};
ghost use Rattle.tpol_prepare.specs.Scenario.{IsScenarioOf, IsWalkable, paths_named};
ghost use Rattle.tpol_runs.specs.Courses.{begun};

use crate::new_run::{NewRun, run_seed};
use crate::performance::Performance;
use std::alloc::Global;
use tpol_base::{ExactClone, NoMemory};
use tpol_choose::{Block, blocks, choose_with_memo};
use tpol_digest::path_at_with_memo;
use tpol_driver::{Plan, Tickets};
use tpol_lines::{chosen_line, labels, nobranch_line, push_block_line};
use tpol_name::Sight;
use tpol_prepare::{Scenario, Way};
use tpol_steps::CompiledDocument;
use tpol_store::CompiledApprovals;
use tpol_texts::Texts;
use tpol_tree::Path;

impl Performance {
    /// A run of the policy of this name begins, as the runs of the scene are driven. The call fails only where memory
    /// ran out.
    #[tactic(auto, unfolding(crate::specs::Begin::run_begun))]
    pub fn begin(
        &mut self,
        alloc: Global,
        scenario: &Scenario,
        policy: &str,
        run: NewRun,
    ) -> Result<(), NoMemory>
        requires scenario { IsScenarioOf self.old.setup scenario.now }
        requires locality { run.locality ≤ 4 }
        ensures told { OnOk result (self.new ≡ run_begun scenario.now policy.now run self.old) }
        ensures past { OnOk result (self.new.past ≡ self.old.past) }
        ensures setup { OnOk result (self.new.setup ≡ self.old.setup) }
    {
        match scenario.manner.way() {
            Way::Sighted | Way::WithTickets => self.begin_in_sight(alloc, scenario, policy, run),
            Way::Blind => self.begin_blindly(alloc, scenario, policy, run),
        }
    }

    // The same, with what the machine shows now.
    #[tactic(auto, unfolding(crate::specs::Begin::begun_in_sight))]
    fn begin_in_sight(
        &mut self,
        alloc: Global,
        scenario: &Scenario,
        policy: &str,
        run: NewRun,
    ) -> Result<(), NoMemory>
        requires scenario { IsScenarioOf self.old.setup scenario.now }
        requires locality { run.locality ≤ 4 }
        ensures told { OnOk result (self.new
            ≡ begun_in_sight scenario.now policy.now run self.old) }
        ensures past { OnOk result (self.new.past ≡ self.old.past) }
        ensures setup { OnOk result (self.new.setup ≡ self.old.setup) }
    {
        match self.machine.sight(alloc) {
            Ok(sight) => {
                let begun = self.begin_seen(alloc, scenario, policy, &sight, run);
                drop(sight);
                begun
            }
            Err(NoMemory) => {
                drop(run);
                Err(NoMemory)
            }
        }
    }

    // The same, with this view.
    #[tactic(auto, unfolding(tpol_prepare::specs::Scenario::paths_named))]
    fn begin_seen(
        &mut self,
        alloc: Global,
        scenario: &Scenario,
        policy: &str,
        sight: &Sight,
        run: NewRun,
    ) -> Result<(), NoMemory>
        requires begun { All (λ document. IsWalkable scenario.now.approvals document.closed)
            scenario.now.begun }
        requires sight { IsSight sight.now }
        requires locality { run.locality ≤ 4 }
        ensures told { OnOk result (self.new
            ≡ begun_on scenario.now sight.now (paths_named scenario.now policy.now) run self.old) }
        ensures past { OnOk result (self.new.past ≡ self.old.past) }
        ensures setup { OnOk result (self.new.setup ≡ self.old.setup) }
    {
        match scenario.document(policy) {
            None => self.begin_without_policy(alloc, run),
            Some(document) => self.begin_on(alloc, scenario, sight, document, run),
        }
    }

    // A run that has no path begins, whatever else the scene has and the machine shows.
    #[tactic(auto, unfolding(crate::specs::Begin::begun_on, crate::specs::Begin::begun_nowhere, crate::specs::Begin::with_blocks, tpol_choose::specs::Blocks::chosen_path))]
    fn begin_without_policy(&mut self, alloc: Global, run: NewRun) -> Result<(), NoMemory>
        ensures told { (scenario : OneScenario) (sight : OneSight)
            → OnOk result (self.new ≡ begun_on scenario sight [] run self.old) }
        ensures past { OnOk result (self.new.past ≡ self.old.past) }
        ensures setup { OnOk result (self.new.setup ≡ self.old.setup) }
    {
        let number = run.number;
        drop(run);
        self.begin_nowhere(alloc, number)
    }

    // A run of a document begins, with what the machine shows now.
    #[tactic(auto, using(tpol_choose::proofs::Few::few_branches, crate::proofs::Chosen::chosen_within, crate::proofs::Chosen::path_is_short), unfolding(crate::specs::Begin::begun_on))]
    fn begin_on(
        &mut self,
        alloc: Global,
        scenario: &Scenario,
        sight: &Sight,
        document: &CompiledDocument,
        run: NewRun,
    ) -> Result<(), NoMemory>
        requires walked { IsWalkable scenario.now.approvals document.now.closed }
        requires sight { IsSight sight.now }
        requires locality { run.locality ≤ 4 }
        ensures told { OnOk result (self.new
            ≡ begun_on scenario.now sight.now
            (paths_of document.now.closed scenario.now.approvals) run self.old) }
        ensures past { OnOk result (self.new.past ≡ self.old.past) }
        ensures setup { OnOk result (self.new.setup ≡ self.old.setup) }
    {
        let approvals = &scenario.approvals;
        let documents = approvals.documents();
        let policy = &document.filled().closed;
        match choose_with_memo(
            policy,
            document.memo(),
            documents,
            approvals.memos(),
            sight,
            &run.grants,
            &run.goal,
            run.locality,
        ) {
            Some(position) => {
                match path_at_with_memo(alloc, policy, document.memo(), documents, position) {
                    Ok(path) => self.begin_along(alloc, scenario, sight, position, path, run),
                    Err(NoMemory) => {
                        drop(run);
                        Err(NoMemory)
                    }
                }
            }
            None => {
                let begun = self.begin_blocked(alloc, approvals, sight, document, &run);
                drop(run);
                begun
            }
        }
    }

    // The run begins on this path.
    fn begin_along(
        &mut self,
        alloc: Global,
        scenario: &Scenario,
        sight: &Sight,
        position: u32,
        path: Path,
        run: NewRun,
    ) -> Result<(), NoMemory>
        requires moves { length path.moves ≤ 512 }
        requires locality { run.locality ≤ 4 }
        ensures told { OnOk result (self.new
            ≡ begun_along scenario.now
            (tickets_given (way_of scenario.now.manner) run.client sight.now self.old.kept) position
            run (Some path) self.old) }
        ensures past { OnOk result (self.new.past ≡ self.old.past) }
        ensures setup { OnOk result (self.new.setup ≡ self.old.setup) }
    {
        match self.begin_told(alloc, scenario, sight, position, &path, &run) {
            Ok(tickets) => self.begin_plan(alloc, scenario, tickets, path, run),
            Err(NoMemory) => {
                drop(path);
                drop(run);
                Err(NoMemory)
            }
        }
    }

    // The line of the path at this position, on which the run goes, and the tickets that it is given.
    fn begin_told(
        &mut self,
        alloc: Global,
        scenario: &Scenario,
        sight: &Sight,
        position: u32,
        path: &Path,
        run: &NewRun,
    ) -> Result<Tickets, NoMemory>
        ensures told { OnOk result (self.new
            ≡ with_line (chosen_line run.now.number position path.now.steps) self.old) }
        ensures tickets { IfOk result (λ tickets. tickets
            ≡ tickets_given (way_of scenario.now.manner) run.now.client sight.now self.old.kept) }
    {
        self.print_chosen(alloc, run.number, position, path)?;
        self.tickets_given(alloc, scenario.manner.way(), run.client, sight)
    }

    /// Prints the line of the path at this position, on which the run goes. The call fails only where memory ran out.
    pub fn print_chosen(
        &mut self,
        alloc: Global,
        number: u16,
        position: u32,
        path: &Path,
    ) -> Result<(), NoMemory>
        ensures { OnOk result (self.new
            ≡ with_line (chosen_line number position path.now.steps) self.old) }
    {
        let line = chosen_line(alloc, number, position, path.steps.as_slice())?;
        self.print(line.as_str())
    }

    // One more run, along this path with these tickets.
    fn begin_plan(
        &mut self,
        alloc: Global,
        scenario: &Scenario,
        tickets: Tickets,
        path: Path,
        run: NewRun,
    ) -> Result<(), NoMemory>
        requires moves { length path.moves ≤ 512 }
        requires locality { run.locality ≤ 4 }
        ensures { OnOk result (self.new
            ≡ with_new_run run.number
            (Some (begun run.client run.locality (plan_along scenario.now tickets path run)))
            self.old) }
    {
        let (number, client, locality) = (run.number, run.client, run.locality);
        let plan = plan_along(scenario, tickets, path, run)?;
        self.runs.begin(alloc, number, client, locality, plan)
    }

    // The run begins on no path: a line for each path tells what stands in its way.
    #[tactic(auto, unfolding(crate::specs::Begin::begun_nowhere))]
    fn begin_blocked(
        &mut self,
        alloc: Global,
        approvals: &CompiledApprovals,
        sight: &Sight,
        document: &CompiledDocument,
        run: &NewRun,
    ) -> Result<(), NoMemory>
        requires walked { IsWalkable approvals.now document.now.closed }
        requires sight { IsSight sight.now }
        ensures told { OnOk result (self.new
            ≡ begun_nowhere sight.now run.now
            (paths_of document.now.closed approvals.now) self.old) }
        ensures past { OnOk result (self.new.past ≡ self.old.past) }
        ensures setup { OnOk result (self.new.setup ≡ self.old.setup) }
    {
        self.begin_nowhere(alloc, run.number)?;
        self.print_blocks(alloc, approvals, sight, document, run)
    }

    // The run begins on no path: it is over at once.
    fn begin_nowhere(&mut self, alloc: Global, number: u16) -> Result<(), NoMemory>
        ensures told { OnOk result (self.new
            ≡ with_line (nobranch_line number) (with_new_run number None self.old)) }
        ensures past { OnOk result (self.new.past ≡ self.old.past) }
        ensures setup { OnOk result (self.new.setup ≡ self.old.setup) }
    {
        self.runs.begin_without_path(number)?;
        let line = nobranch_line(alloc, number)?;
        self.print(line.as_str())
    }

    // A line for each path tells what stands in its way.
    fn print_blocks(
        &mut self,
        alloc: Global,
        approvals: &CompiledApprovals,
        sight: &Sight,
        document: &CompiledDocument,
        run: &NewRun,
    ) -> Result<(), NoMemory>
        requires walked { IsWalkable approvals.now document.now.closed }
        requires sight { IsSight sight.now }
        ensures told { OnOk result (self.new
            ≡ with_blocks sight.now run.now 1
            (paths_of document.now.closed approvals.now) self.old) }
        ensures past { OnOk result (self.new.past ≡ self.old.past) }
        ensures setup { OnOk result (self.new.setup ≡ self.old.setup) }
    {
        let policy = &document.filled().closed;
        let documents = approvals.documents();
        let blocks = blocks(
            alloc,
            policy,
            document.memo(),
            documents,
            approvals.memos(),
            sight,
            &run.grants,
            &run.goal,
            run.locality,
        )?;
        match labels(alloc, policy, documents) {
            Ok(labels) => {
                let printed = self.print_block_list(&labels, &blocks);
                drop(labels);
                drop(blocks);
                printed
            }
            Err(NoMemory) => {
                drop(blocks);
                Err(NoMemory)
            }
        }
    }

    // The lines of what stands in the way of paths with these labels, from the first on.
    #[tactic(auto, using(crate::proofs::TurnSteps::blocks_over))]
    fn print_block_list(&mut self, labels: &Texts, blocks: &[Option<Block>]) -> Result<(), NoMemory>
        requires alike { length labels.now ≡ length blocks.now }
        requires few { length blocks.now ≤ 65536 }
        ensures told { (sight : OneSight) (run : OneRun) (paths : List OnePath)
            → blocks.now ≡ map (λ path. first_block path sight run.grants run.goal run.locality)
            paths
            → labels.now ≡ map (λ path. label path.steps) paths
            → OnOk result (self.new ≡ with_blocks sight run 1 paths self.old) }
        ensures past { OnOk result (self.new.past ≡ self.old.past) }
        ensures setup { OnOk result (self.new.setup ≡ self.old.setup) }
    {
        for index in 0..blocks.len() {
            let position = index as u32 + 1;
            self.print_block(position, labels.get(index), &blocks[index])?;
        }
        Ok(())
    }

    // The line of what stands in the way of the path at this position, with these choices.
    fn print_block(
        &mut self,
        position: u32,
        choices: &[u8],
        block: &Option<Block>,
    ) -> Result<(), NoMemory>
        ensures told { (steps : List PathStep) → choices.now ≡ label steps
            → OnOk result (self.new ≡ with_block position steps block.now self.old) }
        ensures past { OnOk result (self.new.past ≡ self.old.past) }
        ensures setup { OnOk result (self.new.setup ≡ self.old.setup) }
    {
        match block {
            None => Ok(()),
            Some(block) => push_block_line(&mut self.lines, position, choices, block),
        }
    }
}

// What a run along this path is to do.
fn plan_along(
    scenario: &Scenario,
    tickets: Tickets,
    path: Path,
    run: NewRun,
) -> Result<Plan, NoMemory>
    ensures { IfOk result (λ plan. plan ≡ plan_along scenario.now tickets path run) }
{
    match scenario.directory.exact_clone() {
        Ok(directory) => {
            let NewRun {
                number,
                goal,
                grants,
                ..
            } = run;
            Ok(Plan {
                path,
                goal,
                grants,
                directory,
                nonce_seed: run_seed(&scenario.seed, number),
                tickets,
            })
        }
        Err(NoMemory) => {
            drop(tickets);
            drop(path);
            drop(run);
            Err(NoMemory)
        }
    }
}
