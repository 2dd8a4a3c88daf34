// The command `compile`.

ghost use Rattle.std.specs.Prelude.{◌≡◌, ◌++◌, is_some, IfSome, IfOk, IsOk, OnOk, map, ⊤};
ghost use Rattle.std.specs.Option.{option_copied};
ghost use Rattle.tpol_lines.specs.Lines.{line_of};
ghost use Rattle.tpol_steps.specs.Lines.{note_line};
ghost use Rattle.tpol_steps.specs.ReadStep.{read_step};
ghost use Rattle.tpol_steps.specs.Steps.{Answers, AsksShelf, IsInside};
ghost use Rattle.tpol_top.specs.Compile.{compile_step, compiled, compiled_in, compiled_with};
ghost use Rattle.tpol_tree.specs.ClosedErased.{erased};
ghost use Rattle.tpol_tree.specs.Erased.{erased_policy};

use std::alloc::Global;
use tpol_base::{NoMemory, Shelf, Text};
use tpol_digest::digest_of;
use tpol_json::Place;
use tpol_lines::Lines;
use tpol_name::Sight;
use tpol_prepare::sight_of_scene;
use tpol_steps::{Answer, Halt, Verdict, digest_line, fill_document, note_line, read_document};
use tpol_tree::{Closed, Policy};

/// The command `compile`: the notes on the document in the source, and its digest. It is filled with the scene
/// of this name, if one is given.
///
/// `Refused` tells the first refusal: of the document, of the scene, of the shelf's documents, of a policy that
/// the scene names and that is not there or not filled, or of a place of the document that has no value.
/// `ShelfFailed` comes only where a scene is given and the shelf failed, and `NoMemory` where memory ran out. The
/// shelf is asked only where a scene is given, and once the document was read.
#[tactic(auto, unfolding(crate::specs::Compile::compile_step))]
pub fn compile<H: Shelf>(
    alloc: Global,
    scene: &Option<Text>,
    input: &[u8],
    shelf: &mut H,
) -> Result<Answer, Halt>
    ensures answer { IfSome (H.documents shelf.old) (λ all.
        Answers (λ answer. answer) (compile_step scene.now input.now all) result) }
    ensures keeps { H.documents shelf.new ≡ H.documents shelf.old }
    ensures asks { AsksShelf (is_some scene.now) (IsOk (read_step input.now)) shelf.old shelf.new
        (H.faults shelf.old) (H.faults shelf.new) result }
{
    let (policy, notes) = read_document(alloc, input)?;
    compile_read(alloc, scene, &policy, notes.as_slice(), shelf)
}

// The same of what was read.
#[tactic(auto, unfolding(crate::specs::Compile::compiled_with))]
fn compile_read<H: Shelf>(
    alloc: Global,
    scene: &Option<Text>,
    policy: &Policy,
    notes: &[Place],
    shelf: &mut H,
) -> Result<Answer, Halt>
    ensures answer { IfSome (H.documents shelf.old) (λ all.
        Answers (λ answer. answer)
        (compiled_with scene.now (erased_policy policy.now) notes.now all) result) }
    ensures keeps { H.documents shelf.new ≡ H.documents shelf.old }
    ensures asks { AsksShelf (is_some scene.now) ⊤ shelf.old shelf.new (H.faults shelf.old)
        (H.faults shelf.new) result }
{
    let sight = sight_of_scene(alloc, scene, shelf)?;
    compile_policy(alloc, sight.as_ref(), policy, notes)
}

// What is printed of the document, filled with this sight.
#[tactic(auto, unfolding(crate::specs::Compile::compiled_in))]
fn compile_policy(
    alloc: Global,
    sight: Option<&Sight>,
    policy: &Policy,
    notes: &[Place],
) -> Result<Answer, Halt>
    ensures answer { Answers (λ answer. answer)
        (compiled_in (option_copied sight.entry) (erased_policy policy.now) notes.now) result }
    ensures inside { IsInside result }
{
    let closed = fill_document(alloc, None, policy, sight)?;
    Ok(compiled(alloc, notes, &closed)?)
}

// A line for each note, and the digest.
#[tactic(auto, using(tpol_steps::proofs::FilledErased::policy_digest_erased), unfolding(crate::specs::Compile::compiled))]
fn compiled(alloc: Global, notes: &[Place], closed: &Closed) -> Result<Answer, NoMemory>
    ensures { IfOk result (λ answer. answer ≡ compiled notes.now (erased closed.now)) }
{
    let mut lines = Lines::new(alloc);
    push_notes(alloc, &mut lines, notes)?;
    let digest = digest_line(alloc, &digest_of(closed))?;
    lines.push_line(digest.as_str())?;
    Ok(Answer {
        lines,
        verdict: Verdict::Done,
    })
}

fn push_notes(alloc: Global, lines: &mut Lines, notes: &[Place]) -> Result<(), NoMemory>
    ensures { OnOk result (lines.new
        ≡ lines.old ++ map (λ place. line_of (note_line place)) notes.now) }
{
    for place in notes {
        let note = note_line(alloc, place)?;
        lines.push_line(note.as_str())?;
    }
    Ok(())
}
