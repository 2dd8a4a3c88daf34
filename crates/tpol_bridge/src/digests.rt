// The command `digests`.

ghost use Rattle.std.specs.List.{flat_map};
ghost use Rattle.std.specs.Option.{option_copied};
ghost use Rattle.std.specs.Prelude.{◌≡◌, ◌++◌, ◌∷◌, [], codes, is_some, IfOk, IfSome, IsOk, None, Ok, OnOk, Option, map, ⊤};
ghost use Rattle.serde_json.specs.View.{view};
ghost use Rattle.tpol_adopt.specs.Dropped.{dropped};
ghost use Rattle.tpol_bridge.specs.Digests.{digests_step, export_lines, told, told_in, told_with};
ghost use Rattle.tpol_bridge.specs.Exports.{export_step, seen};
ghost use Rattle.tpol_bridge.specs.Lines.{digest_line_at, dropped_line, mark_lines, other_lines};
ghost use Rattle.tpol_marks.specs.Marks.{marks_of};
ghost use Rattle.tpol_lines.specs.Lines.{line_of};
ghost use Rattle.tpol_name.specs.declared.sight.Sight.{Sight};
ghost use Rattle.tpol_steps.specs.Filled.{filled_step};
ghost use Rattle.tpol_steps.specs.Lines.{note_line};
ghost use Rattle.tpol_steps.specs.Steps.{Answers, AsksShelf, IsInside};
ghost use Rattle.tpol_tree.specs.ClosedErased.{erased};
ghost use Rattle.tpol_tree.specs.Erased.{erased_policy};

use crate::export::{Export, read_export};
use serde_json::Value;
use std::alloc::Global;
use tpol_adopt::dropped;
use tpol_base::{Digest32, NoMemory, Shelf, Text};
use tpol_digest::digest_of;
use tpol_json::{Place, place_text};
use tpol_lines::Lines;
use tpol_marks::{Mark, marks_of, own_digests};
use tpol_name::Sight;
use tpol_prepare::sight_of_scene;
use tpol_steps::{Answer, Halt, Verdict, digest_line, fill_document, note_line};
use tpol_tree::Closed;

/// The command `digests`: the authorizations of the export in the source that are left out, the notes on it, the digest
/// after each of its elements with those digests of the export that are others, and its digest. It is filled with the
/// scene of this name, if one is given.
///
/// `Refused` tells the first refusal: of the export, of the scene, of the shelf's documents, of a policy that the scene
/// names and that is not there or not filled, or of a place of the export that has no value. `ShelfFailed` comes only
/// where a scene is given and the shelf failed, and `NoMemory` where memory ran out. The shelf is asked only where a
/// scene is given, and once the export was read.
#[tactic(auto, unfolding(crate::specs::Digests::digests_step))]
pub fn digests<H: Shelf>(
    alloc: Global,
    scene: &Option<Text>,
    input: &[u8],
    shelf: &mut H,
) -> Result<Answer, Halt>
    ensures answer { IfSome (H.documents shelf.old) (λ all.
        Answers (λ answer. answer) (digests_step scene.now input.now all) result) }
    ensures keeps { H.documents shelf.new ≡ H.documents shelf.old }
    ensures asks { AsksShelf (is_some scene.now) (IsOk (export_step input.now)) shelf.old shelf.new
        (H.faults shelf.old) (H.faults shelf.new) result }
{
    let export = read_export(alloc, input)?;
    tell_with(alloc, scene, &export, shelf)
}

// The same of what was read.
#[tactic(auto, unfolding(crate::specs::Digests::told_with))]
fn tell_with<H: Shelf>(
    alloc: Global,
    scene: &Option<Text>,
    export: &Export,
    shelf: &mut H,
) -> Result<Answer, Halt>
    ensures answer { IfSome (H.documents shelf.old) (λ all.
        Answers (λ answer. answer) (told_with scene.now (seen export.now) all) result) }
    ensures keeps { H.documents shelf.new ≡ H.documents shelf.old }
    ensures asks { AsksShelf (is_some scene.now) ⊤ shelf.old shelf.new (H.faults shelf.old)
        (H.faults shelf.new) result }
{
    let sight = sight_of_scene(alloc, scene, shelf)?;
    tell_in(alloc, sight.as_ref(), export)
}

// What is told of an export that is filled with this sight.
#[tactic(auto, unfolding(crate::specs::Digests::told_in))]
fn tell_in(alloc: Global, sight: Option<&Sight>, export: &Export) -> Result<Answer, Halt>
    ensures answer { Answers (λ answer. answer)
        (told_in (option_copied sight.entry) (seen export.now)) result }
    ensures inside { IsInside result }
{
    let closed = fill_document(alloc, None, &export.policy, sight)?;
    Ok(tell(alloc, export, &closed)?)
}

// What is told of an export, where this is its policy with every wish given.
#[tactic(auto, using(tpol_steps::proofs::FilledErased::policy_digest_erased), unfolding(crate::specs::Digests::told))]
fn tell(alloc: Global, export: &Export, closed: &Closed) -> Result<Answer, NoMemory>
    ensures { (sight : Option Sight)
        → filled_step None (erased_policy export.now.policy) sight ≡ Ok (erased closed.now)
        → IfOk result (λ answer. answer ≡ told sight (seen export.now) (erased closed.now)) }
{
    let mut lines = Lines::new(alloc);
    push_export(alloc, &mut lines, export, closed)?;
    let digest = digest_line(alloc, &digest_of(closed))?;
    lines.push_line(digest.as_str())?;
    Ok(Answer {
        lines,
        verdict: Verdict::Done,
    })
}

// The lines before the policy's digest.
fn push_export(
    alloc: Global,
    lines: &mut Lines,
    export: &Export,
    closed: &Closed,
) -> Result<(), NoMemory>
    ensures { (sight : Option Sight)
        → filled_step None (erased_policy export.now.policy) sight ≡ Ok (erased closed.now)
        → OnOk result (lines.new ≡ lines.old ++ export_lines sight (seen export.now)) }
{
    push_dropped(alloc, lines, dropped(alloc, &export.document)?.as_slice())?;
    push_notes(alloc, lines, export.notes.as_slice())?;
    let marks = marks_of(alloc, &export.policy, closed)?;
    push_marks(alloc, lines, &export.document, marks.as_slice())
}

fn push_dropped(alloc: Global, lines: &mut Lines, places: &[Place]) -> Result<(), NoMemory>
    ensures { OnOk result (lines.new
        ≡ lines.old ++ map (λ place. line_of (dropped_line place)) places.now) }
{
    for place in places {
        let mut line = Text::from_str(alloc, "dropped ")?;
        line.push_str(place_text(alloc, place)?.as_str())?;
        lines.push_line(line.as_str())?;
    }
    Ok(())
}

fn push_notes(alloc: Global, lines: &mut Lines, places: &[Place]) -> Result<(), NoMemory>
    ensures { OnOk result (lines.new
        ≡ lines.old ++ map (λ place. line_of (note_line place)) places.now) }
{
    for place in places {
        let note = note_line(alloc, place)?;
        lines.push_line(note.as_str())?;
    }
    Ok(())
}

// The digest after each element, with those of the document that are others.
fn push_marks(
    alloc: Global,
    lines: &mut Lines,
    document: &Value,
    marks: &[Mark],
) -> Result<(), NoMemory>
    ensures { OnOk result (lines.new
        ≡ lines.old ++ flat_map (mark_lines (view document.now)) marks.now) }
{
    for mark in marks {
        push_mark(alloc, lines, document, mark)?;
    }
    Ok(())
}

fn push_mark(
    alloc: Global,
    lines: &mut Lines,
    document: &Value,
    mark: &Mark,
) -> Result<(), NoMemory>
    ensures { OnOk result (lines.new ≡ lines.old ++ mark_lines (view document.now) mark.now) }
{
    push_digest(alloc, lines, "after ", &mark.place, &mark.digest)?;
    let owns = own_digests(alloc, document, &mark.place)?;
    push_others(alloc, lines, mark, owns.as_slice())
}

// Those of an export's own digests of an element that are others than this.
fn push_others(
    alloc: Global,
    lines: &mut Lines,
    mark: &Mark,
    owns: &[Digest32],
) -> Result<(), NoMemory>
    ensures { OnOk result (lines.new ≡ lines.old ++ flat_map (other_lines mark.now) owns.now) }
{
    for own in owns {
        push_other(alloc, lines, mark, own)?;
    }
    Ok(())
}

fn push_other(alloc: Global, lines: &mut Lines, mark: &Mark, own: &Digest32) -> Result<(), NoMemory>
    ensures { OnOk result (lines.new ≡ lines.old ++ other_lines mark.now own.now) }
{
    if own.bytes == mark.digest.bytes {
        return Ok(());
    }
    push_digest(alloc, lines, "other ", &mark.place, own)
}

// Adds the line of a word, a place and a digest.
fn push_digest(
    alloc: Global,
    lines: &mut Lines,
    word: &str,
    place: &Place,
    digest: &Digest32,
) -> Result<(), NoMemory>
    ensures { OnOk result (lines.new
        ≡ lines.old ++ line_of (digest_line_at word.now place.now digest.now) ∷ []) }
{
    let mut line = Text::from_str(alloc, word)?;
    line.push_str(place_text(alloc, place)?.as_str())?;
    line.push_str(" ")?;
    line.push_str(hex::encode(alloc, digest.bytes.as_slice())?.as_str())?;
    lines.push_line(line.as_str())
}
