//! The outside: sources, sinks and shelves, and how they fail.

ghost use Rattle.std.specs.Prelude.{◌≡◌, ◌+◌, ◌≤◌, ◌<◌, List, ℕ, length, Option, IfSome, IfOk, OnOk, OnErr, MatchResult};
ghost use Rattle.std.specs.Option.{option_map};
ghost use Rattle.std.specs.Io.{ReadsAtMost};
ghost use Rattle.std.specs.Io.KnownBytes.{ReadConsumes};
ghost use Rattle.std.specs.List.Sorted.{IsPermutation};
ghost use Rattle.tpol_base.specs.Causes.{HasCause, HasLapse, IsQuiet, Grows, GrowsInPart};
ghost use Rattle.tpol_base.specs.Documents.{document_of, handed_out, put_document, names_of};
ghost use Rattle.tpol_base.specs.declared.document.Document.{Document};

use crate::{Blob, NoMemory, Texts};

/// A call of a source or a sink failed.
#[derive(Clone, Copy, Debug, PartialEq, Eq)]
pub struct Failed;

/// Why a call of a shelf gave no answer: the shelf failed, or memory ran out.
#[derive(Clone, Copy, Debug, PartialEq, Eq)]
pub enum Lapse {
    Failed,
    NoMemory,
}

impl From<NoMemory> for Lapse {
    ghost use Rattle.tpol_base.specs.declared.outside.Lapse.TheVariants.{NoMemory as OutOfMemory};

    ghost from_gives = { λ _ lapse. lapse ≡ OutOfMemory };

    fn from(_: NoMemory) -> Self {
        Lapse::NoMemory
    }
}

/// Where a document is read from.
pub trait Source {
    /// The bytes that are left, where the source tells them.
    ghost left: { Self → Option (List ℕ) };

    /// How often the source has failed.
    ghost faults: { Self → ℕ };

    /// Reads into `buf`, which is not empty: the number of bytes read, which of a source that tells its bytes is 0 at
    /// the end of the input alone. `Failed` comes only where the count of faults rose in this call, or stands at its
    /// last value, 2^64 - 1; the count rises by one at most, and in no call that is answered `Ok`.
    fn read(&mut self, buf: &mut [u8]) -> Result<usize, Failed>
        requires { 0 < length buf.old }
        ensures bound { ReadsAtMost result buf.new }
        ensures bytes { ReadConsumes (left self.old) (left self.new) result buf.new }
        ensures cause { HasCause (faults self.old) (faults self.new) result }
        ensures once { faults self.new ≤ faults self.old + 1 }
        ensures quiet { OnOk result (faults self.new ≡ faults self.old) };
}

/// Where lines are written to.
pub trait Sink {
    /// The bytes that were written, where the sink tells them.
    ghost contents: { Self → Option (List ℕ) };

    /// How often the sink has failed.
    ghost faults: { Self → ℕ };

    /// Appends all of `bytes`. After `Failed`, which comes only where the count of faults rose in this call, or stands
    /// at its last value, 2^64 - 1, a first part of them was appended, which may be empty. The count rises by one at
    /// most, and in no call that is answered `Ok`. What told its content before tells it afterwards.
    fn write(&mut self, bytes: &[u8]) -> Result<(), Failed>
        ensures written { MatchResult result
            (λ _. Grows (contents self.old) (contents self.new) bytes.now)
            (λ _. GrowsInPart (contents self.old) (contents self.new) bytes.now) }
        ensures cause { HasCause (faults self.old) (faults self.new) result }
        ensures once { faults self.new ≤ faults self.old + 1 }
        ensures quiet { OnOk result (faults self.new ≡ faults self.old) };
}

/// Where documents are kept, by name. `Failed` comes only where the count of faults rose in the call, or stands at its
/// last value, 2^64 - 1; the count rises by one at most, and in no call that is answered otherwise.
pub trait Shelf {
    /// The documents, where the shelf tells them.
    ghost documents: { Self → Option (List Document) };

    /// How often the shelf has failed.
    ghost faults: { Self → ℕ };

    /// The document of this name, or `None` where there is none. A document of more than 1,048,576 bytes
    /// is handed out by its first 1,048,577 bytes.
    fn fetch(&mut self, name: &str) -> Result<Option<Blob>, Lapse>
        ensures keeps { documents self.new ≡ documents self.old }
        ensures found { IfSome (documents self.old)
            (λ all. IfOk result (λ found. found ≡ handed_out (document_of name.now all))) }
        ensures cause { HasLapse (faults self.old) (faults self.new) result }
        ensures once { faults self.new ≤ faults self.old + 1 }
        ensures quiet { IsQuiet (faults self.old) (faults self.new) result };

    /// Replaces the document of this name, or adds it. After a lapse the documents are as before.
    fn put(&mut self, name: &str, bytes: &[u8]) -> Result<(), Lapse>
        ensures put { OnOk result
            (documents self.new ≡ option_map (put_document name.now bytes.now)
            (documents self.old)) }
        ensures keeps { OnErr result (documents self.new ≡ documents self.old) }
        ensures cause { HasLapse (faults self.old) (faults self.new) result }
        ensures once { faults self.new ≤ faults self.old + 1 }
        ensures quiet { IsQuiet (faults self.old) (faults self.new) result };

    /// The names of all documents, in any order.
    fn names(&mut self) -> Result<Texts, Lapse>
        ensures keeps { documents self.new ≡ documents self.old }
        ensures listed { IfSome (documents self.old)
            (λ all. IfOk result (λ listed. IsPermutation (names_of all) listed)) }
        ensures cause { HasLapse (faults self.old) (faults self.new) result }
        ensures once { faults self.new ≤ faults self.old + 1 }
        ensures quiet { IsQuiet (faults self.old) (faults self.new) result };
}
