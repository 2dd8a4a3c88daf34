//! Reading the store of a shelf.

ghost use Rattle.std.specs.Prelude.{◌≡◌, ◌≤◌, ◌⊎◌, [], All, map, Some, IfOk, IfSome, IsErrOf};
ghost use Rattle.std.specs.String.{string_bytes};
ghost use Rattle.tpol_base.specs.Causes.{Rose};
ghost use Rattle.tpol_base.specs.Documents.{document_of, handed_out};
ghost use Rattle.tpol_store.specs.FileNames.{file_name};
ghost use Rattle.tpol_store.specs.Loading.{Loads, document_in, documents_from, few_names, names_of_shelf, policy_in, seen_document, store_of};
ghost use Rattle.tpol_store.specs.Stores.{IsReadable, named_policy, policies_of, stored};

use crate::file_name::{document_names, file_name};
use crate::{Store, StoreFault, StoredPolicy};
use std::alloc::Global;
use tpol_base::{Blob, Lapse, Sequence, Shelf, Text, most_handed_out};
use tpol_read::{PolicyFault, read_policy};

/// How many documents a store may have.
pub const MAX_DOCUMENTS: usize = 1024;

impl Store {
    /// Reads all documents of a shelf whose name is a policy's name followed by `.json`, in ascending byte
    /// order of the names without `.json`. A document that is listed and not handed out is passed over.
    ///
    /// - `Failed`: only where the shelf's count of faults rose, or stands at its last value.
    /// - `TooMany`: more than 1,024 names of such documents are listed, each counted once.
    /// - `TooLarge`: the first document that is refused has more than 1,048,576 bytes.
    /// - `Bad`: the first document that is refused stands for no policy; its first fault is told.
    ///
    /// Where the shelf tells its documents, the last three come exactly there, a lapse aside.
    #[tactic(auto, using(crate::proofs::ListedNames::read_is_loaded))]
    pub fn load<H: Shelf>(alloc: Global, shelf: &mut H) -> Result<Store, StoreFault>
        ensures loaded { IfSome (H.documents shelf.old)
            (λ all. Loads policies_of (store_of all) result) }
        ensures readable { IfOk result (λ store. All IsReadable (stored store)) }
        ensures keeps { H.documents shelf.new ≡ H.documents shelf.old }
        ensures later { H.faults shelf.old ≤ H.faults shelf.new }
        ensures failed { IsErrOf result StoreFault.Failed
            → Rose (H.faults shelf.old) (H.faults shelf.new) }
        ensures stays { IsErrOf result StoreFault.Failed
            ⊎ (H.faults shelf.new ≡ H.faults shelf.old) }
    {
        let names = listed_names(alloc, shelf)?;
        let documents = read_documents(alloc, shelf, names.as_slice())?;
        Ok(Store::of_documents(documents))
    }
}

// The names of the policies that are listed, without `.json`, unless there are too many.
#[tactic(auto, using(crate::proofs::ListedNames::listed_are_of_shelf))]
fn listed_names<H: Shelf>(alloc: Global, shelf: &mut H) -> Result<Vec<String>, StoreFault>
    ensures names { IfSome (H.documents shelf.old) (λ all.
        Loads (λ names. map string_bytes names.items) (names_of_shelf all) result) }
    ensures keeps { H.documents shelf.new ≡ H.documents shelf.old }
    ensures later { H.faults shelf.old ≤ H.faults shelf.new }
    ensures failed { IsErrOf result StoreFault.Failed
        → Rose (H.faults shelf.old) (H.faults shelf.new) }
    ensures stays { IsErrOf result StoreFault.Failed ⊎ (H.faults shelf.new ≡ H.faults shelf.old) }
{
    match shelf.names() {
        Ok(listed) => few_names(alloc, listed.as_slice()),
        Err(Lapse::Failed) => Err(StoreFault::Failed),
        Err(Lapse::NoMemory) => Err(StoreFault::NoMemory),
    }
}

#[tactic(auto, unfolding(crate::specs::Loading::few_names))]
fn few_names(alloc: Global, listed: &[Text]) -> Result<Vec<String>, StoreFault>
    ensures names { Loads (λ names. map string_bytes names.items) (few_names listed.now) result }
    ensures shelf { IsErrOf result StoreFault.Failed → ⊥ }
{
    let names = document_names(alloc, listed)?;
    if names.len() > MAX_DOCUMENTS {
        return Err(StoreFault::TooMany);
    }
    Ok(names)
}

// The documents of these names that are handed out, in order.
#[tactic(auto, unfolding(crate::specs::Loading::documents_from))]
fn read_documents<H: Shelf>(
    alloc: Global,
    shelf: &mut H,
    names: &[String],
) -> Result<Sequence<StoredPolicy>, StoreFault>
    ensures read { IfSome (H.documents shelf.old) (λ all.
        Loads (map named_policy) (documents_from [] (map string_bytes names.now) all) result) }
    ensures readable { IfOk result (All IsReadable) }
    ensures keeps { H.documents shelf.new ≡ H.documents shelf.old }
    ensures later { H.faults shelf.old ≤ H.faults shelf.new }
    ensures failed { IsErrOf result StoreFault.Failed
        → Rose (H.faults shelf.old) (H.faults shelf.new) }
    ensures stays { IsErrOf result StoreFault.Failed ⊎ (H.faults shelf.new ≡ H.faults shelf.old) }
{
    let mut documents = Sequence::new(alloc);
    for name in names {
        match read_document(alloc, shelf, name.as_str()) {
            Ok(Some(document)) => documents.push(document)?,
            Ok(None) => {}
            Err(fault) => return Err(fault),
        }
    }
    Ok(documents)
}

// The document of this name; `None` where the shelf hands out none.
fn read_document<H: Shelf>(
    alloc: Global,
    shelf: &mut H,
    name: &str,
) -> Result<Option<StoredPolicy>, StoreFault>
    ensures read { IfSome (H.documents shelf.old) (λ all.
        Loads seen_document (document_in name.now
        (handed_out (document_of (file_name name.now) all))) result) }
    ensures readable { IfOk result (λ found. IfSome found IsReadable) }
    ensures keeps { H.documents shelf.new ≡ H.documents shelf.old }
    ensures later { H.faults shelf.old ≤ H.faults shelf.new }
    ensures failed { IsErrOf result StoreFault.Failed
        → Rose (H.faults shelf.old) (H.faults shelf.new) }
    ensures stays { IsErrOf result StoreFault.Failed ⊎ (H.faults shelf.new ≡ H.faults shelf.old) }
{
    let file = file_name(alloc, name)?;
    match shelf.fetch(file.as_str()) {
        Ok(Some(bytes)) => Ok(Some(read_bytes(alloc, name, &bytes)?)),
        Ok(None) => Ok(None),
        Err(Lapse::Failed) => Err(StoreFault::Failed),
        Err(Lapse::NoMemory) => Err(StoreFault::NoMemory),
    }
}

// The document of this name that the shelf hands out.
fn read_bytes(alloc: Global, name: &str, bytes: &Blob) -> Result<StoredPolicy, StoreFault>
    ensures read { Loads (λ document. seen_document (Some document))
        (document_in name.now (Some bytes.now)) result }
    ensures readable { IfOk result IsReadable }
    ensures shelf { IsErrOf result StoreFault.Failed → ⊥ }
{
    let name = Text::from_str(alloc, name)?;
    if bytes.len() >= most_handed_out() {
        return Err(StoreFault::TooLarge(name));
    }
    policy_document(alloc, name, bytes.as_slice())
}

#[tactic(auto, unfolding(crate::specs::Loading::policy_in))]
fn policy_document(alloc: Global, name: Text, bytes: &[u8]) -> Result<StoredPolicy, StoreFault>
    ensures read { Loads (λ document. seen_document (Some document))
        (policy_in name bytes.now) result }
    ensures readable { IfOk result IsReadable }
    ensures shelf { IsErrOf result StoreFault.Failed → ⊥ }
{
    match read_policy(alloc, bytes) {
        Ok((policy, _)) => Ok(StoredPolicy { name, policy }),
        Err(PolicyFault::NotJson) => Err(StoreFault::Bad(name, PolicyFault::NotJson)),
        Err(PolicyFault::Bad { kind, place }) => {
            Err(StoreFault::Bad(name, PolicyFault::Bad { kind, place }))
        }
        Err(PolicyFault::NoMemory) => Err(StoreFault::NoMemory),
    }
}
