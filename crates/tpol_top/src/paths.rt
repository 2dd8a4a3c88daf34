// The commands `paths` and `lint`.

ghost use Rattle.std.specs.Prelude.{◌≡◌, ◌∷◌, ◌++◌, [], true, All, IfSome, IfOk, IsOk, OnOk, map, ⊤};
ghost use Rattle.tpol_digest.specs.Limits.{AreWithinLimits};
ghost use Rattle.tpol_digest.specs.Paths.{paths_of};
ghost use Rattle.tpol_lines.specs.LintLine.{dead_lines};
ghost use Rattle.tpol_lint.specs.Dead.{IsDead};
ghost use Rattle.tpol_steps.specs.ReadStep.{read_step};
ghost use Rattle.tpol_steps.specs.Steps.{Answers, AsksShelf};
ghost use Rattle.tpol_top.specs.Paths.{dead_answer, listed_with, path_answer, paths_step, view_answer};
ghost use Rattle.tpol_tree.specs.ClosedErased.{erased, erased_document};
ghost use Rattle.tpol_tree.specs.Erased.{erased_policy};

use std::alloc::Global;
use tpol_base::{NoMemory, Shelf, Text};
use tpol_digest::{count_paths, digest_of};
use tpol_lines::{Lines, dead_line_at, lint_line, write_paths};
use tpol_lint::{Dead, lint};
use tpol_prepare::closed_source;
use tpol_steps::{Answer, Halt, Verdict, digest_line, read_document};
use tpol_tree::{Approvals, Closed, Policy};

/// What is told of a policy's paths.
#[derive(Clone, Copy)]
pub enum PathView {
    /// Each path, and the digest that they give: the command `paths`.
    All,
    /// The paths that can never open, and how many of all they are: the command `lint`.
    Dead,
}

/// The commands `paths` and `lint`: what is told of the paths of the document in the source. It is filled with
/// the scene of this name, if one is given, and documents of the shelf are approved.
///
/// `Refused` tells the first refusal: of the document, of the scene, of the shelf's documents, of a policy that
/// the scene names and that is not there or not filled, of a place of the document that has no value, or of paths
/// that are not within the limits. `ShelfFailed` comes only where the shelf failed, and `NoMemory` where memory
/// ran out. The shelf is asked only once the document was read.
#[tactic(auto, unfolding(crate::specs::Paths::paths_step))]
pub fn list_paths<H: Shelf>(
    alloc: Global,
    view: PathView,
    scene: &Option<Text>,
    input: &[u8],
    shelf: &mut H,
) -> Result<Answer, Halt>
    ensures answer { IfSome (H.documents shelf.old) (λ all.
        Answers (λ answer. answer) (paths_step view scene.now input.now all) result) }
    ensures keeps { H.documents shelf.new ≡ H.documents shelf.old }
    ensures asks { AsksShelf true (IsOk (read_step input.now)) shelf.old shelf.new
        (H.faults shelf.old) (H.faults shelf.new) result }
{
    let (policy, _notes) = read_document(alloc, input)?;
    list_read(alloc, view, scene, &policy, shelf)
}

// The same of what was read.
#[tactic(auto, unfolding(crate::specs::Paths::listed_with))]
fn list_read<H: Shelf>(
    alloc: Global,
    view: PathView,
    scene: &Option<Text>,
    policy: &Policy,
    shelf: &mut H,
) -> Result<Answer, Halt>
    ensures answer { IfSome (H.documents shelf.old) (λ all.
        Answers (λ answer. answer)
        (listed_with view scene.now (erased_policy policy.now) all) result) }
    ensures keeps { H.documents shelf.new ≡ H.documents shelf.old }
    ensures asks { AsksShelf true ⊤ shelf.old shelf.new (H.faults shelf.old)
        (H.faults shelf.new) result }
{
    let found = closed_source(alloc, scene, policy, shelf)?;
    let answer = view_answer(alloc, view, &found.closed, &found.approvals);
    drop(found);
    answer.map_err(Halt::from)
}

// What is told of a policy's paths.
fn view_answer(
    alloc: Global,
    view: PathView,
    closed: &Closed,
    approvals: &Approvals,
) -> Result<Answer, NoMemory>
    requires within { AreWithinLimits (paths_of closed.now approvals.now) }
    ensures { IfOk result (λ answer. answer
        ≡ view_answer view (erased closed.now)
        (paths_of (erased closed.now) (map erased_document approvals.now))) }
{
    match view {
        PathView::All => path_answer(alloc, closed, approvals),
        PathView::Dead => dead_answer(alloc, closed, approvals),
    }
}

// A line for each path, and the digest.
#[tactic(auto, using(crate::proofs::PathAnswers::path_answer_erased))]
fn path_answer(alloc: Global, closed: &Closed, approvals: &Approvals) -> Result<Answer, NoMemory>
    ensures { IfOk result (λ answer. answer
        ≡ path_answer (erased closed.now)
        (paths_of (erased closed.now) (map erased_document approvals.now))) }
{
    let mut lines = write_paths(alloc, closed, approvals)?;
    let digest = digest_line(alloc, &digest_of(closed))?;
    lines.push_line(digest.as_str())?;
    let verdict = Verdict::Done;
    Ok(Answer { lines, verdict })
}

// A line for each path that can never open, and how many of all they are.
#[tactic(auto, using(crate::proofs::PathAnswers::dead_answer_erased))]
fn dead_answer(alloc: Global, closed: &Closed, approvals: &Approvals) -> Result<Answer, NoMemory>
    requires within { AreWithinLimits (paths_of closed.now approvals.now) }
    ensures { IfOk result (λ answer. answer
        ≡ dead_answer (paths_of (erased closed.now) (map erased_document approvals.now))) }
{
    let dead = lint(alloc, closed, approvals)?;
    let mut lines = Lines::new(alloc);
    push_dead_lines(alloc, &mut lines, closed, approvals, dead.as_slice())?;
    let all = count_paths(closed, approvals);
    let told = lint_line(alloc, dead.len(), all)?;
    lines.push_line(told.as_str())?;
    let verdict = Verdict::Done;
    Ok(Answer { lines, verdict })
}

// Adds a line for each of these dead paths.
fn push_dead_lines(
    alloc: Global,
    lines: &mut Lines,
    closed: &Closed,
    approvals: &Approvals,
    dead: &[Dead],
) -> Result<(), NoMemory>
    requires within { AreWithinLimits (paths_of closed.now approvals.now) }
    requires dead { All (IsDead (paths_of closed.now approvals.now)) dead.now }
    ensures { OnOk result (lines.new
        ≡ lines.old ++ dead_lines (paths_of closed.now approvals.now) dead.now) }
{
    for one in dead {
        push_dead_line(alloc, lines, closed, approvals, one)?;
    }
    Ok(())
}

// Adds the line of this dead path.
#[tactic(auto, using(crate::proofs::DeadPaths::is_position))]
fn push_dead_line(
    alloc: Global,
    lines: &mut Lines,
    closed: &Closed,
    approvals: &Approvals,
    dead: &Dead,
) -> Result<(), NoMemory>
    requires within { AreWithinLimits (paths_of closed.now approvals.now) }
    requires dead { IsDead (paths_of closed.now approvals.now) dead.now }
    ensures { OnOk result (lines.new
        ≡ lines.old ++ dead_lines (paths_of closed.now approvals.now) (dead.now ∷ [])) }
{
    let line = dead_line_at(alloc, closed, approvals, dead)?;
    lines.push_line(line.as_str())
}
