ghost use Rattle.std.specs.Prelude.{◌≡◌, [], All, IfOk, OnOk, map};
ghost use Rattle.std.specs.Option.{option_copied};
ghost use Rattle.tpol_store.specs.Stores.{IsReadable, policies_of, stored};
ghost use Rattle.tpol_prepare.specs.FilledDocuments.{document_step, documents_from, is_filled, reference_step};
ghost use Rattle.tpol_steps.specs.Filled.{IsReadyDocument, erased_filled};
ghost use Rattle.tpol_steps.specs.Steps.{Answers, IsInside};

use crate::entities::{CompiledEntity, compile_document};
use crate::references::{Reference, policy_at};
use std::alloc::Global;
use tpol_base::Sequence;
use tpol_name::Sight;
use tpol_steps::{CompiledDocument, FilledDocument, Halt, fill_document};
use tpol_store::Store;

/// Fills the documents that are named, each once, in the order of their first references. The digests of one are not
/// computed again where the policy of the first entity with a policy of its name is seen to be filled the same.
///
/// `Refused` tells what is wrong with the first one that is not filled: the store does not have it, or a place in
/// it has no value. `NoMemory` comes where memory ran out, and nothing else comes.
#[tactic(auto, unfolding(crate::specs::FilledDocuments::documents_from))]
pub fn fill_references(
    alloc: Global,
    store: &Store,
    sight: Option<&Sight>,
    entities: &[CompiledEntity],
    references: &[Reference],
) -> Result<Sequence<CompiledDocument>, Halt>
    ensures answer { Answers (map erased_filled)
        (documents_from (policies_of store.now) (option_copied sight.entry) [] references.now)
        result }
    ensures inside { IsInside result }
    ensures ready { All IsReadable (stored store.now) → IfOk result (All IsReadyDocument) }
{
    let mut documents = Sequence::new(alloc);
    for reference in references {
        add_reference(alloc, store, sight, entities, &mut documents, reference)?;
    }
    Ok(documents)
}

// Adds the document that is named, unless it is there.
#[tactic(auto, unfolding(crate::specs::FilledDocuments::document_step), using(crate::proofs::FilledNames::is_filled_erased))]
fn add_reference(
    alloc: Global,
    store: &Store,
    sight: Option<&Sight>,
    entities: &[CompiledEntity],
    documents: &mut Sequence<CompiledDocument>,
    reference: &Reference,
) -> Result<(), Halt>
    ensures answer { Answers (λ _. map erased_filled documents.new)
        (document_step (policies_of store.now) (option_copied sight.entry)
        (map erased_filled documents.old) reference.now) result }
    ensures inside { IsInside result }
    ensures ready { All IsReadable (stored store.now) → All IsReadyDocument documents.old
        → OnOk result (All IsReadyDocument documents.new) }
{
    if is_filled(documents.as_slice(), reference.name.as_str()) {
        return Ok(());
    }
    let document = fill_reference(alloc, store, sight, entities, reference)?;
    documents.push(document)?;
    Ok(())
}

// Whether a document of this name is among these.
fn is_filled(documents: &[CompiledDocument], name: &str) -> bool
    ensures { result ≡ is_filled name.now documents.now }
{
    documents
        .iter()
        .any(|document| document.filled().name.as_str() == name)
}

// Fills the document that is named.
#[tactic(auto, unfolding(crate::specs::FilledDocuments::reference_step))]
fn fill_reference(
    alloc: Global,
    store: &Store,
    sight: Option<&Sight>,
    entities: &[CompiledEntity],
    reference: &Reference,
) -> Result<CompiledDocument, Halt>
    ensures answer { Answers erased_filled
        (reference_step (policies_of store.now) (option_copied sight.entry) reference.now) result }
    ensures inside { IsInside result }
    ensures ready { All IsReadable (stored store.now) → IfOk result IsReadyDocument }
{
    let written = policy_at(alloc, store, &reference.name, &reference.place)?;
    let closed = fill_document(alloc, Some(&reference.name), written, sight)?;
    let name = reference.name.try_clone(alloc)?;
    let filled = FilledDocument { name, closed };
    Ok(compile_document(alloc, entities, filled)?)
}
