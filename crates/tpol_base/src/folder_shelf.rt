//! A folder of the file system as a shelf.

ghost use Rattle.std.specs.Prelude.{None, ◌≡◌, ◌≤◌, ◌+◌, ◌↔◌, Ok, IfOk, IfErr, IsErrAnd};
ghost use Rattle.std.specs.IoError.{error_kind};
ghost use Rattle.std.specs.String.{string_bytes};
ghost use Rattle.tpol_base.specs.Adapters.{folder_of, shelf_faults};
ghost use Rattle.tpol_base.specs.Causes.{HasLapse, IsQuiet, Rose};

use crate::folder_files::{list_documents, read_document, write_document};
use crate::{Blob, Lapse, Shelf, Texts};
use std::io;
use std::io::ErrorKind;
use std::rt::Files;

/// A folder of the file system as a shelf: a document's name is its file's name. A file is listed where its
/// name is the name of a policy followed by `.json` or `.scene`. What is no regular file after links are
/// followed, as a folder or a pipe, is no document, and is never opened. A folder that is not there is an
/// empty shelf; `put` makes it.
///
/// The shelf raises its count by one at each call that an error of the file system ends, but for want of memory, and
/// tells nothing of the content.
#[derive(Drop)]
pub struct FolderShelf<R: Files + AllocGlobal + Clone + Drop> {
    rt: R,
    folder: String,
    faults: u64,
}

impl<R: Files + AllocGlobal + Clone + Drop> FolderShelf<R> {
    /// The shelf of this folder, with no fault so far.
    pub fn new(rt: R, folder: String) -> FolderShelf<R>
        ensures folder { folder_of result ≡ string_bytes folder }
        ensures no_fault { shelf_faults result ≡ 0 }
    {
        FolderShelf {
            rt,
            folder,
            faults: 0,
        }
    }

    // What the shelf answers where the file system answered so: the same value, want of memory where that
    // was the error, and else a fault, which is counted.
    fn told<T>(&mut self, answer: io::Result<T>) -> Result<T, Lapse>
        ensures ok { IfOk answer (λ value. result ≡ Ok value) }
        ensures err { IfErr answer (λ error. IsErrAnd result (λ lapse.
            (lapse ≡ Lapse.NoMemory) ↔ (error_kind error ≡ ErrorKind.OutOfMemory))) }
        ensures cause { HasLapse self.old.faults self.new.faults result }
        ensures once { self.new.faults ≤ self.old.faults + 1 }
        ensures quiet { IsQuiet self.old.faults self.new.faults result }
    {
        match answer {
            Ok(value) => Ok(value),
            Err(error) => Err(self.lapse(error)),
        }
    }

    // The lapse that an error of the file system is.
    fn lapse(&mut self, error: io::Error) -> Lapse
        ensures later { self.old.faults ≤ self.new.faults }
        ensures once { self.new.faults ≤ self.old.faults + 1 }
        ensures failed { result ≡ Lapse.Failed → Rose self.old.faults self.new.faults }
        ensures quiet { result ≡ Lapse.NoMemory → self.new.faults ≡ self.old.faults }
        ensures memory { (result ≡ Lapse.NoMemory) ↔ (error_kind error ≡ ErrorKind.OutOfMemory) }
    {
        if error.kind() == ErrorKind::OutOfMemory {
            return Lapse::NoMemory;
        }
        self.faults = self.faults.saturating_add(1);
        Lapse::Failed
    }
}

impl<R: Files + AllocGlobal + Clone + Drop> Shelf for FolderShelf<R> {
    ghost documents = { λ _. None };

    ghost faults = { λ s. shelf_faults s };

    fn fetch(&mut self, name: &str) -> Result<Option<Blob>, Lapse> {
        let read = read_document(&self.rt, self.folder.as_str(), name);
        self.told(read)
    }

    fn put(&mut self, name: &str, bytes: &[u8]) -> Result<(), Lapse> {
        let written = write_document(&self.rt, self.folder.as_str(), name, bytes);
        self.told(written)
    }

    fn names(&mut self) -> Result<Texts, Lapse> {
        let listed = list_documents(&self.rt, self.folder.as_str());
        self.told(listed)
    }
}
