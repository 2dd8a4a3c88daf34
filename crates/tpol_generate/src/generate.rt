// The command `gen`.

ghost use Rattle.std.specs.Prelude.{◌≡◌, [], ◌∷◌, ◌++◌, ◌<◌, ◌≤◌, ◌^◌, None, codes, length, IfOk, OnOk};
ghost use Rattle.tpol_digest.specs.Limits.{AreWithinLimits};
ghost use Rattle.tpol_digest.specs.Paths.{paths_of};
ghost use Rattle.tpol_fill.specs.Forms.{IsFilledPolicy};
ghost use Rattle.tpol_generate.specs.FirstRun.{performed_run};
ghost use Rattle.tpol_generate.specs.Generate.{generate_step, generated_answer, generated_head, generated_performance, generated_policy, generated_run, generated_run_lines, generated_scenario};
ghost use Rattle.tpol_lines.specs.Generated.{command_count_line, generated_line, path_count_line};
ghost use Rattle.tpol_lines.specs.Lines.{line_of};
ghost use Rattle.tpol_name.specs.Setups.{IsSetup};
ghost use Rattle.tpol_perform.specs.Performance.{start_of};
ghost use Rattle.tpol_steps.specs.Filled.{filled_step};
ghost use Rattle.tpol_steps.specs.Limits.{limit_step};
ghost use Rattle.tpol_steps.specs.Lines.{digest_line};
ghost use Rattle.tpol_prepare.specs.Scenario.{IsScenarioOf};
ghost use Rattle.tpol_steps.specs.Steps.{Answers, IsInside};
ghost use Rattle.tpol_tree.specs.ClosedErased.{erased};

use crate::first_run::perform_run;
use crate::generated::{generated_policy, generated_run, generated_setup};
use std::alloc::Global;
use tpol_base::{Digest32, NoMemory, Sequence, Text};
use tpol_digest::count_paths;
use tpol_lines::{Lines, command_count_line, generated_line, path_count_line};
use tpol_name::{Setup, directory};
use tpol_perform::Performance;
use tpol_prepare::{Manner, Scenario, Way};
use tpol_steps::{
    Answer, CompiledDocument, FilledDocument, Halt, Verdict, check_limits, digest_line,
    fill_document,
};
use tpol_store::CompiledApprovals;
use tpol_tree::{Approvals, Closed};

/// The command `gen`: a policy of so many ORs, whose branches stand in an order by the bits of a number, how many paths
/// it has and its digest, and a run of it on a machine of its own.
///
/// `Refused` tells that the policy is not filled or not within the limits; `NoMemory` comes where memory ran out, and
/// nothing else comes.
#[tactic(auto, using(crate::proofs::GeneratedErased::generated_answer_erased), unfolding(crate::specs::Generate::generate_step))]
pub fn perform_generated(alloc: Global, ors: u8, order: u32) -> Result<Answer, Halt>
    ensures answer { Answers (λ answer. answer) (generate_step ors order) result }
    ensures inside { IsInside result }
{
    let closed = filled_policy(alloc, ors, order)?;
    match check_alone(alloc, &closed) {
        Ok(()) => Ok(generated_answer(alloc, ors, order, closed)?),
        Err(halt) => {
            drop(closed);
            Err(halt)
        }
    }
}

// The policy, filled.
fn filled_policy(alloc: Global, ors: u8, order: u32) -> Result<Closed, Halt>
    ensures answer { Answers erased (filled_step None (generated_policy ors order) None) result }
    ensures inside { IsInside result }
    ensures form { IfOk result IsFilledPolicy }
{
    let policy = generated_policy(alloc, ors, order)?;
    let closed = fill_document(alloc, None, &policy, None);
    drop(policy);
    closed
}

// Ends the run where a policy to which nothing is approved has too many paths, or one that is too long.
fn check_alone(alloc: Global, closed: &Closed) -> Result<(), Halt>
    ensures answer { Answers (λ _. tt) (limit_step None (erased closed.now) []) result }
    ensures inside { IsInside result }
    ensures within { IfOk result (λ _. AreWithinLimits (paths_of closed.now [])) }
{
    check_limits(alloc, None, closed, &Approvals::new(alloc))
}

// What is printed of the policy and of its run.
fn generated_answer(alloc: Global, ors: u8, order: u32, closed: Closed) -> Result<Answer, NoMemory>
    requires form { IsFilledPolicy closed }
    requires within { AreWithinLimits (paths_of closed []) }
    ensures { IfOk result (λ answer. answer ≡ generated_answer ors order closed) }
{
    let document = generated_document(alloc, closed)?;
    let mut lines = match generated_head(alloc, ors, order, &document) {
        Ok(lines) => lines,
        Err(NoMemory) => {
            drop(document);
            return Err(NoMemory);
        }
    };
    push_run(alloc, &mut lines, order, document)?;
    let verdict = Verdict::Done;
    Ok(Answer { lines, verdict })
}

// The policy, under its name, with its digests.
fn generated_document(alloc: Global, closed: Closed) -> Result<CompiledDocument, NoMemory>
    ensures { IfOk result (λ document. document ≡ record { name = codes "gen"; closed = closed }) }
{
    match Text::from_str(alloc, "gen") {
        Ok(name) => CompiledDocument::new(alloc, FilledDocument { name, closed }),
        Err(NoMemory) => {
            drop(closed);
            Err(NoMemory)
        }
    }
}

// The lines of the policy: by which numbers it was made, how many paths it has, and its digest.
fn generated_head(
    alloc: Global,
    ors: u8,
    order: u32,
    document: &CompiledDocument,
) -> Result<Lines, NoMemory>
    requires within { AreWithinLimits (paths_of document.now.closed []) }
    ensures { IfOk result (λ lines. lines ≡ generated_head ors order document.now.closed) }
{
    let closed = &document.filled().closed;
    let count = count_paths(closed, &Approvals::new(alloc)) as u32;
    let mut lines = Lines::new(alloc);
    push_made(alloc, &mut lines, ors, order)?;
    push_path_count(alloc, &mut lines, count)?;
    push_digest(alloc, &mut lines, &document.digest())?;
    Ok(lines)
}

fn push_made(alloc: Global, lines: &mut Lines, ors: u8, order: u32) -> Result<(), NoMemory>
    ensures { OnOk result (lines.new ≡ lines.old ++ line_of (generated_line ors order) ∷ []) }
{
    let line = generated_line(alloc, u32::from(ors), order)?;
    lines.push_line(line.as_str())
}

fn push_path_count(alloc: Global, lines: &mut Lines, count: u32) -> Result<(), NoMemory>
    ensures { OnOk result (lines.new ≡ lines.old ++ line_of (path_count_line count) ∷ []) }
{
    let line = path_count_line(alloc, count)?;
    lines.push_line(line.as_str())
}

fn push_digest(alloc: Global, lines: &mut Lines, digest: &Digest32) -> Result<(), NoMemory>
    ensures { OnOk result (lines.new ≡ lines.old ++ line_of (digest_line digest.now) ∷ []) }
{
    let line = digest_line(alloc, digest)?;
    lines.push_line(line.as_str())
}

// The lines of the run of the policy.
fn push_run(
    alloc: Global,
    lines: &mut Lines,
    order: u32,
    document: CompiledDocument,
) -> Result<(), NoMemory>
    requires name { document.name ≡ codes "gen" }
    requires form { IsFilledPolicy document.closed }
    requires within { AreWithinLimits (paths_of document.closed []) }
    ensures { OnOk result (lines.new
        ≡ lines.old ++ generated_run_lines (generated_performance order document.closed)) }
{
    let performance = generated_performance(alloc, order, document)?;
    let pushed = push_performance(alloc, lines, &performance);
    drop(performance);
    pushed
}

// The lines of the run: the first, how many commands were executed, and the last two.
fn push_performance(
    alloc: Global,
    lines: &mut Lines,
    performance: &Performance,
) -> Result<(), NoMemory>
    requires few { length performance.now.past < 2 ^ 32 }
    ensures { OnOk result (lines.new ≡ lines.old ++ generated_run_lines performance.now) }
{
    let told = &performance.lines;
    let all = told.len();
    lines.append(told, 0, all.min(1))?;
    let count = performance.machine.journal().len() as u32;
    push_command_count(alloc, lines, count)?;
    lines.append(told, all - all.min(2), all)
}

fn push_command_count(alloc: Global, lines: &mut Lines, count: u32) -> Result<(), NoMemory>
    ensures { OnOk result (lines.new ≡ lines.old ++ line_of (command_count_line count) ∷ []) }
{
    let line = command_count_line(alloc, count)?;
    lines.push_line(line.as_str())
}

// The run begins, and goes to its end.
fn generated_performance(
    alloc: Global,
    order: u32,
    document: CompiledDocument,
) -> Result<Performance, NoMemory>
    requires name { document.name ≡ codes "gen" }
    requires form { IsFilledPolicy document.closed }
    requires within { AreWithinLimits (paths_of document.closed []) }
    ensures told { IfOk result (λ performance. performance
        ≡ generated_performance order document.closed) }
    ensures few { IfOk result (λ performance. length performance.past ≤ 65700) }
{
    match generated_setup(alloc, order, &document.digest()) {
        Ok(setup) => performance_from(alloc, setup, document),
        Err(NoMemory) => {
            drop(document);
            Err(NoMemory)
        }
    }
}

// The same, on a machine that starts from this setup.
fn performance_from(
    alloc: Global,
    setup: Setup,
    document: CompiledDocument,
) -> Result<Performance, NoMemory>
    requires setup { IsSetup setup }
    requires name { document.name ≡ codes "gen" }
    requires form { IsFilledPolicy document.closed }
    requires within { AreWithinLimits (paths_of document.closed []) }
    ensures told { IfOk result (λ performance. performance
        ≡ performed_run (generated_scenario setup document.closed) (codes "gen") generated_run
        (start_of setup)) }
    ensures few { IfOk result (λ performance. length performance.past ≤ 65700) }
{
    match generated_scenario(alloc, &setup, document) {
        Ok(scenario) => {
            let performance = perform_on(alloc, setup, &scenario);
            drop(scenario);
            performance
        }
        Err(NoMemory) => {
            drop(setup);
            Err(NoMemory)
        }
    }
}

// The run of the client.
fn perform_on(alloc: Global, setup: Setup, scenario: &Scenario) -> Result<Performance, NoMemory>
    requires setup { IsSetup setup }
    requires scenario { IsScenarioOf setup scenario.now }
    ensures told { IfOk result (λ performance. performance ≡ performed_run scenario.now
        (codes "gen") generated_run (start_of setup)) }
    ensures few { IfOk result (λ performance. length performance.past ≤ 65700) }
{
    match generated_run(alloc) {
        Ok(run) => perform_run(alloc, setup, scenario, "gen", run),
        Err(NoMemory) => {
            drop(setup);
            Err(NoMemory)
        }
    }
}

// What the events of the run go by.
#[tactic(auto, unfolding(crate::specs::Generate::generated_scenario))]
fn generated_scenario(
    alloc: Global,
    setup: &Setup,
    document: CompiledDocument,
) -> Result<Scenario, NoMemory>
    requires name { document.name ≡ codes "gen" }
    ensures { IfOk result (λ scenario. scenario ≡ generated_scenario setup.now document.closed) }
{
    match directory(alloc, setup) {
        Ok(directory) => {
            let mut begun = Sequence::new(alloc);
            begun.push(document)?;
            Ok(Scenario {
                manner: Manner::Run(Way::Sighted),
                seed: setup.seed,
                directory,
                entities: Sequence::new(alloc),
                begun,
                approvals: CompiledApprovals::new(alloc),
                clients: Sequence::new(alloc),
            })
        }
        Err(NoMemory) => {
            drop(document);
            Err(NoMemory)
        }
    }
}
