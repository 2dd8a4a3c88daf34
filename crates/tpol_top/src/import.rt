// The command `import`.

ghost use Rattle.std.specs.Prelude.{◌≡◌, true, Some, IfSome, IfOk, IsOk, OnErr};
ghost use Rattle.tpol_steps.specs.ReadStep.{read_step};
ghost use Rattle.tpol_steps.specs.Steps.{Answers, AsksShelf};
ghost use Rattle.tpol_top.specs.Import.{documents_after_import, import_step, imported};

use std::alloc::Global;
use tpol_base::{NoMemory, Shelf, Text};
use tpol_steps::{Answer, Halt, Verdict, read_document};
use tpol_store::put_policy;

/// The command `import`: puts the canonical text of the document in the source on the shelf, under this name.
/// The line is made first, so that nothing wants memory once the document is there.
///
/// `Refused` tells the first fault of the document in the source; `ShelfFailed` comes only where the shelf failed,
/// and `NoMemory` where memory ran out. After each of them the shelf's documents are as before. The shelf is asked
/// only once the document was read.
#[tactic(auto, using(tpol_write::proofs::CanonErased::canonical_text_erased), unfolding(crate::specs::Import::import_step, crate::specs::Import::documents_after_import))]
pub fn import<H: Shelf>(
    alloc: Global,
    name: &Text,
    input: &[u8],
    shelf: &mut H,
) -> Result<Answer, Halt>
    ensures answer { Answers (λ answer. answer) (import_step name.now input.now) result }
    ensures puts { IfOk result (λ _. IfSome (H.documents shelf.old) (λ all.
        H.documents shelf.new ≡ Some (documents_after_import name.now input.now all))) }
    ensures keeps { OnErr result (H.documents shelf.new ≡ H.documents shelf.old) }
    ensures asks { AsksShelf true (IsOk (read_step input.now)) shelf.old shelf.new
        (H.faults shelf.old) (H.faults shelf.new) result }
{
    let (policy, _notes) = read_document(alloc, input)?;
    let answer = imported(alloc, name)?;
    match put_policy(alloc, shelf, name.as_str(), &policy) {
        Ok(()) => Ok(answer),
        Err(lapse) => {
            drop(answer);
            Err(Halt::from(lapse))
        }
    }
}

fn imported(alloc: Global, name: &Text) -> Result<Answer, NoMemory>
    ensures { IfOk result (λ answer. answer ≡ imported name.now) }
{
    let mut line = Text::from_str(alloc, "imported ")?;
    line.push_str(name.as_str())?;
    Answer::of_line(alloc, line.as_str(), Verdict::Done)
}
