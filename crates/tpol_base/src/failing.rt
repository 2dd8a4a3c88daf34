//! Objects of the outside that fail where they are told to.

ghost use Rattle.std.specs.Prelude.{◌≡◌, ◌≤◌, ◌<◌, ◌+◌, length, IsTrue, IsFalse, IsErr, IsErrOf, IfSome, IfOk, OnOk, OnErr, MatchResult};
ghost use Rattle.std.specs.Bool.{OnTrue, OnFalse};
ghost use Rattle.std.specs.Io.{ReadsAtMost};
ghost use Rattle.std.specs.Io.KnownBytes.{ReadConsumes};
ghost use Rattle.std.specs.List.Sorted.{IsPermutation};
ghost use Rattle.std.specs.Option.{option_map};
ghost use Rattle.tpol_base.specs.Causes.{HasCause, HasLapse, IsQuiet, Grows, GrowsInPart, Rose};
ghost use Rattle.tpol_base.specs.Documents.{document_of, handed_out, names_of, put_document};
ghost use Rattle.tpol_base.specs.Failing as below;
ghost use Rattle.tpol_base.specs.Failing.{IsCounted, calls_made, failing_calls, fails_next, inner, own_faults};

use crate::{Blob, Failed, Lapse, Shelf, Sink, Source, Texts};

/// A source, a sink or a shelf that stands over another one, and fails at the calls of a list, counted from 1. Such a
/// call does not reach the one below: it raises the counts of calls and of faults alone, which stop at 2^64 - 1.
#[derive(Drop)]
pub struct Failing<T> {
    inner: T,
    failing: Vec<u64>,
    calls: u64,
    faults: u64,
}

impl<T> Failing<T> {
    /// `inner`, with these calls failing.
    pub fn new(inner: T, failing: Vec<u64>) -> Failing<T>
        ensures inner { below.inner result ≡ inner }
        ensures list { failing_calls result ≡ failing.items }
        ensures no_call { calls_made result ≡ 0 }
        ensures no_fault { own_faults result ≡ 0 }
    {
        Failing {
            inner,
            failing,
            calls: 0,
            faults: 0,
        }
    }

    /// What stands below.
    pub fn inner(&self) -> &T
        ensures { result.now ≡ inner self.now }
    {
        &self.inner
    }

    // Counts a call, and a fault where this call is one of those that fail.
    fn fails_now(&mut self) -> bool
        ensures fails { result ≡ fails_next self.old }
        ensures counted { IsCounted self.old self.new }
        ensures inner { inner self.new ≡ inner self.old }
        ensures later { own_faults self.old ≤ own_faults self.new }
        ensures once { own_faults self.new ≤ own_faults self.old + 1 }
        ensures passes { OnFalse result (own_faults self.new ≡ own_faults self.old) }
        ensures rose { OnTrue result (Rose (own_faults self.old) (own_faults self.new)) }
    {
        self.calls = self.calls.saturating_add(1);
        let fails = self.failing.contains(&self.calls);
        if fails {
            self.faults = self.faults.saturating_add(1);
        }
        fails
    }
}

impl<T: Source> Source for Failing<T> {
    ghost left = { λ s. T.left (inner s) };

    ghost faults = { λ s. own_faults s + T.faults (inner s) };

    fn read(&mut self, buf: &mut [u8]) -> Result<usize, Failed>
        requires { 0 < length buf.old }
        ensures bound { ReadsAtMost result buf.new }
        ensures bytes { ReadConsumes (T.left (inner self.old))
            (T.left (inner self.new)) result buf.new }
        ensures cause { HasCause (own_faults self.old + T.faults (inner self.old))
            (own_faults self.new + T.faults (inner self.new)) result }
        ensures once { own_faults self.new + T.faults (inner self.new)
            ≤ own_faults self.old + T.faults (inner self.old) + 1 }
        ensures quiet { OnOk result (own_faults self.new + T.faults (inner self.new)
            ≡ own_faults self.old + T.faults (inner self.old)) }
        ensures counted { IsCounted self.old self.new }
        ensures fails { IsTrue (fails_next self.old) → IsErr result }
        ensures still { IsTrue (fails_next self.old) → inner self.new ≡ inner self.old }
        ensures passes { IsFalse (fails_next self.old) → own_faults self.new ≡ own_faults self.old }
    {
        if self.fails_now() {
            return Err(Failed);
        }
        self.inner.read(buf)
    }
}

impl<T: Sink> Sink for Failing<T> {
    ghost contents = { λ s. T.contents (inner s) };

    ghost faults = { λ s. own_faults s + T.faults (inner s) };

    fn write(&mut self, bytes: &[u8]) -> Result<(), Failed>
        ensures written { MatchResult result
            (λ _. Grows (T.contents (inner self.old)) (T.contents (inner self.new)) bytes.now)
            (λ _. GrowsInPart (T.contents (inner self.old))
            (T.contents (inner self.new)) bytes.now) }
        ensures cause { HasCause (own_faults self.old + T.faults (inner self.old))
            (own_faults self.new + T.faults (inner self.new)) result }
        ensures once { own_faults self.new + T.faults (inner self.new)
            ≤ own_faults self.old + T.faults (inner self.old) + 1 }
        ensures quiet { OnOk result (own_faults self.new + T.faults (inner self.new)
            ≡ own_faults self.old + T.faults (inner self.old)) }
        ensures counted { IsCounted self.old self.new }
        ensures fails { IsTrue (fails_next self.old) → IsErr result }
        ensures still { IsTrue (fails_next self.old) → inner self.new ≡ inner self.old }
        ensures passes { IsFalse (fails_next self.old) → own_faults self.new ≡ own_faults self.old }
    {
        if self.fails_now() {
            return Err(Failed);
        }
        self.inner.write(bytes)
    }
}

impl<T: Shelf> Shelf for Failing<T> {
    ghost documents = { λ s. T.documents (inner s) };

    ghost faults = { λ s. own_faults s + T.faults (inner s) };

    fn fetch(&mut self, name: &str) -> Result<Option<Blob>, Lapse>
        ensures keeps { T.documents (inner self.new) ≡ T.documents (inner self.old) }
        ensures found { IfSome (T.documents (inner self.old))
            (λ all. IfOk result (λ found. found ≡ handed_out (document_of name.now all))) }
        ensures cause { HasLapse (own_faults self.old + T.faults (inner self.old))
            (own_faults self.new + T.faults (inner self.new)) result }
        ensures once { own_faults self.new + T.faults (inner self.new)
            ≤ own_faults self.old + T.faults (inner self.old) + 1 }
        ensures quiet { IsQuiet (own_faults self.old + T.faults (inner self.old))
            (own_faults self.new + T.faults (inner self.new)) result }
        ensures counted { IsCounted self.old self.new }
        ensures fails { IsTrue (fails_next self.old) → IsErrOf result Lapse.Failed }
        ensures still { IsTrue (fails_next self.old) → inner self.new ≡ inner self.old }
        ensures passes { IsFalse (fails_next self.old) → own_faults self.new ≡ own_faults self.old }
    {
        if self.fails_now() {
            return Err(Lapse::Failed);
        }
        self.inner.fetch(name)
    }

    fn put(&mut self, name: &str, bytes: &[u8]) -> Result<(), Lapse>
        ensures put { OnOk result (T.documents (inner self.new)
            ≡ option_map (put_document name.now bytes.now) (T.documents (inner self.old))) }
        ensures keeps { OnErr result (T.documents (inner self.new) ≡ T.documents (inner self.old)) }
        ensures cause { HasLapse (own_faults self.old + T.faults (inner self.old))
            (own_faults self.new + T.faults (inner self.new)) result }
        ensures once { own_faults self.new + T.faults (inner self.new)
            ≤ own_faults self.old + T.faults (inner self.old) + 1 }
        ensures quiet { IsQuiet (own_faults self.old + T.faults (inner self.old))
            (own_faults self.new + T.faults (inner self.new)) result }
        ensures counted { IsCounted self.old self.new }
        ensures fails { IsTrue (fails_next self.old) → IsErrOf result Lapse.Failed }
        ensures still { IsTrue (fails_next self.old) → inner self.new ≡ inner self.old }
        ensures passes { IsFalse (fails_next self.old) → own_faults self.new ≡ own_faults self.old }
    {
        if self.fails_now() {
            return Err(Lapse::Failed);
        }
        self.inner.put(name, bytes)
    }

    fn names(&mut self) -> Result<Texts, Lapse>
        ensures keeps { T.documents (inner self.new) ≡ T.documents (inner self.old) }
        ensures listed { IfSome (T.documents (inner self.old))
            (λ all. IfOk result (λ listed. IsPermutation (names_of all) listed)) }
        ensures cause { HasLapse (own_faults self.old + T.faults (inner self.old))
            (own_faults self.new + T.faults (inner self.new)) result }
        ensures once { own_faults self.new + T.faults (inner self.new)
            ≤ own_faults self.old + T.faults (inner self.old) + 1 }
        ensures quiet { IsQuiet (own_faults self.old + T.faults (inner self.old))
            (own_faults self.new + T.faults (inner self.new)) result }
        ensures counted { IsCounted self.old self.new }
        ensures fails { IsTrue (fails_next self.old) → IsErrOf result Lapse.Failed }
        ensures still { IsTrue (fails_next self.old) → inner self.new ≡ inner self.old }
        ensures passes { IsFalse (fails_next self.old) → own_faults self.new ≡ own_faults self.old }
    {
        if self.fails_now() {
            return Err(Lapse::Failed);
        }
        self.inner.names()
    }
}
