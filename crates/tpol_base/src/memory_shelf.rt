//! A shelf in memory.

ghost use Rattle.std.specs.Prelude.{◌≡◌, [], Some, position, find, take, map, OnOk, OnErr, IfOk};
ghost use Rattle.std.specs.Option.{option_copied};
ghost use Rattle.tpol_base.specs.Documents.{is_named, most_handed_out, put_document};

use crate::{Blob, Document, Lapse, NoMemory, Shelf, Text, Texts};
use std::alloc::Global;
use std::marker::Model;

/// A shelf in memory that never fails; contracts see the list of its documents.
#[derive(Drop)]
pub struct MemoryShelf {
    alloc: Global,
    documents: Vec<Document>,
}

impl Model for MemoryShelf {
    ghost use Rattle.std.specs.Prelude.{List};
    ghost use Rattle.tpol_base.specs.declared.document.Document.{Document};

    ghost Value = { List Document };

    ghost view = { λ s. s.documents.items };
}

impl MemoryShelf {
    /// A shelf without a document; it takes no memory.
    pub fn new(alloc: Global) -> MemoryShelf
        ensures { result ≡ [] }
    {
        MemoryShelf {
            alloc,
            documents: Vec::new(alloc),
        }
    }
}

impl Shelf for MemoryShelf {
    ghost documents = { λ s. Some s };

    ghost faults = { λ _. 0 };

    fn fetch(&mut self, name: &str) -> Result<Option<Blob>, Lapse> {
        match find_document(self.documents.as_slice(), name) {
            None => Ok(None),
            Some(document) => Ok(Some(front(
                self.alloc,
                document.bytes.as_slice(),
                most_handed_out(),
            )?)),
        }
    }

    fn put(&mut self, name: &str, bytes: &[u8]) -> Result<(), Lapse> {
        let document = copy_document(self.alloc, name, bytes)?;
        put_into(&mut self.documents, document)?;
        Ok(())
    }

    fn names(&mut self) -> Result<Texts, Lapse> {
        Ok(copy_names(self.alloc, self.documents.as_slice())?)
    }
}

/// The number of bytes that a shelf hands out of a document at most, 1,048,577: one more than a document may have.
pub fn most_handed_out() -> usize
    ensures { result ≡ most_handed_out }
{
    1_048_577
}

// The first document of this name.
fn find_document<'a>(documents: &'a [Document], name: &str) -> Option<&'a Document>
    ensures { option_copied result ≡ find (is_named name.now) documents.now }
{
    documents
        .iter()
        .find(|document| document.name.as_str() == name)
}

// Where the first document of this name stands.
fn place_of(documents: &[Document], name: &str) -> Option<usize>
    ensures { result ≡ position (is_named name.now) documents.now }
{
    documents
        .iter()
        .position(|document| document.name.as_str() == name)
}

// A copy of the first `most` bytes.
fn front(alloc: Global, bytes: &[u8], most: usize) -> Result<Blob, NoMemory>
    ensures { IfOk result (λ copy. copy ≡ take most bytes.now) }
{
    Blob::from_slice(alloc, &bytes[..bytes.len().min(most)])
}

fn copy_document(alloc: Global, name: &str, bytes: &[u8]) -> Result<Document, NoMemory>
    ensures { IfOk result (λ document. document ≡ record { name = name.now; bytes = bytes.now }) }
{
    Ok(Document {
        name: Text::from_str(alloc, name)?,
        bytes: Blob::from_slice(alloc, bytes)?,
    })
}

fn put_into(documents: &mut Vec<Document>, document: Document) -> Result<(), NoMemory>
    ensures ok { OnOk result (documents.new.items
        ≡ put_document document.name document.bytes documents.old.items) }
    ensures err { OnErr result (documents.new.items ≡ documents.old.items) }
{
    match place_of(documents.as_slice(), document.name.as_str()) {
        Some(place) => documents[place] = document,
        None => documents.push(document)?,
    }
    Ok(())
}

fn copy_names(alloc: Global, documents: &[Document]) -> Result<Texts, NoMemory>
    ensures { IfOk result (λ names. names ≡ map (λ document. document.name) documents.now) }
{
    let mut names = Texts::new(alloc);
    for document in documents {
        names.push(document.name.clone()?)?;
    }
    Ok(names)
}
