// The command `steps`.

ghost use Rattle.std.specs.Prelude.{◌≡◌, true, codes, IfOk, IfSome, IsOk, map, ⊤};
ghost use Rattle.tpol_bridge.specs.Exports.{export_step};
ghost use Rattle.tpol_bridge.specs.Steps.{found_step, path_answer, path_at, stepped_with, steps_step};
ghost use Rattle.tpol_digest.specs.Limits.{AreWithinLimits};
ghost use Rattle.tpol_digest.specs.Paths.{paths_of};
ghost use Rattle.tpol_steps.specs.Answer.{one_line};
ghost use Rattle.tpol_steps.specs.Steps.{Answers, AsksShelf, IsInside};
ghost use Rattle.tpol_tree.specs.ClosedErased.{erased, erased_document};
ghost use Rattle.tpol_tree.specs.Erased.{erased_policy};

use crate::export::read_export;
use std::alloc::Global;
use tpol_base::{NoMemory, Shelf, Text};
use tpol_digest::{count_paths, digest_of, path_at};
use tpol_lines::Lines;
use tpol_moves::{path_line, push_steps};
use tpol_prepare::closed_source;
use tpol_steps::{Answer, Halt, Verdict, digest_line};
use tpol_tree::{Approvals, Closed, Path, Policy};

/// The command `steps`: the line of the path at a position of the export in the source, from 1, as `paths` counts them,
/// a line for each of its policy commands, and the policy's digest. It is filled with the scene of this name, if one is
/// given, and documents of the shelf are approved.
///
/// `Refused` tells the first refusal: of the export, of the scene, of the shelf's documents, of a policy that the scene
/// names and that is not there or not filled, of a place of the export that has no value, of paths that are not within
/// the limits, or of a position that no path has. `ShelfFailed` comes only where the shelf failed, and `NoMemory` where
/// memory ran out. The shelf is asked only once the export was read.
#[tactic(auto, unfolding(crate::specs::Steps::steps_step))]
pub fn steps<H: Shelf>(
    alloc: Global,
    position: u32,
    scene: &Option<Text>,
    input: &[u8],
    shelf: &mut H,
) -> Result<Answer, Halt>
    ensures answer { IfSome (H.documents shelf.old) (λ all.
        Answers (λ answer. answer) (steps_step position scene.now input.now all) result) }
    ensures keeps { H.documents shelf.new ≡ H.documents shelf.old }
    ensures asks { AsksShelf true (IsOk (export_step input.now)) shelf.old shelf.new
        (H.faults shelf.old) (H.faults shelf.new) result }
{
    let export = read_export(alloc, input)?;
    tell_policy(alloc, position, scene, &export.policy, shelf)
}

// The same of what was read.
#[tactic(auto, unfolding(crate::specs::Steps::stepped_with))]
fn tell_policy<H: Shelf>(
    alloc: Global,
    position: u32,
    scene: &Option<Text>,
    policy: &Policy,
    shelf: &mut H,
) -> Result<Answer, Halt>
    ensures answer { IfSome (H.documents shelf.old) (λ all.
        Answers (λ answer. answer)
        (stepped_with position scene.now (erased_policy policy.now) all) result) }
    ensures keeps { H.documents shelf.new ≡ H.documents shelf.old }
    ensures asks { AsksShelf true ⊤ shelf.old shelf.new (H.faults shelf.old)
        (H.faults shelf.new) result }
{
    let found = closed_source(alloc, scene, policy, shelf)?;
    let answer = tell_position(alloc, position, &found.closed, &found.approvals);
    drop(found);
    answer
}

// What is told of the path at a position.
#[tactic(auto, using(crate::proofs::Positions::found_step_erased, crate::proofs::Positions::no_path, crate::proofs::Positions::one_path))]
fn tell_position(
    alloc: Global,
    position: u32,
    closed: &Closed,
    approvals: &Approvals,
) -> Result<Answer, Halt>
    requires within { AreWithinLimits (paths_of closed.now approvals.now) }
    ensures answer { Answers (λ answer. answer) (found_step (erased closed.now) position
        (path_at (paths_of (erased closed.now) (map erased_document approvals.now)) position))
        result }
    ensures inside { IsInside result }
{
    if position == 0 || u64::from(position) > count_paths(closed, approvals) {
        return Err(Halt::Refused(no_such_path(alloc)?));
    }
    let path = path_at(alloc, closed, approvals, position)?;
    Ok(tell_path(alloc, closed, position, &path)?)
}

fn no_such_path(alloc: Global) -> Result<Answer, NoMemory>
    ensures { IfOk result (λ answer. answer ≡ one_line (codes "error Usage") Verdict.Usage) }
{
    Answer::of_line(alloc, "error Usage", Verdict::Usage)
}

// The line of a path, those of its policy commands, and the policy's digest.
fn tell_path(alloc: Global, closed: &Closed, position: u32, path: &Path) -> Result<Answer, NoMemory>
    ensures { IfOk result (λ answer. answer ≡ path_answer closed.now position path.now) }
{
    let mut lines = Lines::new(alloc);
    let line = path_line(alloc, position, path)?;
    lines.push_line(line.as_str())?;
    push_steps(alloc, &mut lines, path.moves.as_slice())?;
    let digest = digest_line(alloc, &digest_of(closed))?;
    lines.push_line(digest.as_str())?;
    Ok(Answer {
        lines,
        verdict: Verdict::Done,
    })
}
