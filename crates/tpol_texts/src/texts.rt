ghost use Rattle.std.specs.Prelude.{◌≡◌, ◌∷◌, ◌++◌, ◌<◌, ◌≤◌, ◌+◌, ◌-◌, ◌⊎◌, [], Some, length, slice_get, slice_index_or, take, IfOk, OnErr, OnOk};
ghost use Rattle.std.specs.List.{flat_map};

use std::alloc::Global;
use std::marker::Model;
use tpol_base::NoMemory;

/// Texts behind one another in one buffer. Contracts see the list of the texts, each a list of bytes.
#[derive(Drop)]
pub struct Texts {
    bytes: Vec<u8>,
    // Where each text ends.
    ends: Vec<usize>,
}

impl Model for Texts {
    ghost use Rattle.std.specs.Prelude.{List, ℕ, length};
    ghost use Rattle.tpol_texts.specs.Buffer.{AreEnds, cut};

    ghost Value = { List (List ℕ) };

    ghost view = { λ t. cut 0 t.ends.items t.bytes.items };

    ghost invariant = { λ t. AreEnds 0 t.ends.items (length t.bytes.items) };
}

impl Texts {
    /// No text; it takes no memory.
    pub fn new(alloc: Global) -> Texts
        ensures { result ≡ [] }
    {
        Texts {
            bytes: Vec::new(alloc),
            ends: Vec::new(alloc),
        }
    }

    /// The one text of these bytes, which are not copied. It fails only where memory ran out.
    pub fn of_bytes(alloc: Global, bytes: Vec<u8>) -> Result<Texts, NoMemory>
        ensures { IfOk result (λ texts. texts ≡ bytes.items ∷ []) }
    {
        let mut ends = Vec::new(alloc);
        ends.push(bytes.len())?;
        Ok(Texts { bytes, ends })
    }

    /// The number of texts.
    pub fn len(&self) -> usize
        ensures { result ≡ length self.now }
    {
        self.ends.len()
    }

    /// The text at `index`, counted from 0.
    pub fn get(&self, index: usize) -> &[u8]
        requires { index < length self.now }
        ensures { result.now ≡ slice_index_or self.now index result.now }
    {
        let start = start_of(self.ends.as_slice(), index);
        let end = self.ends[index];
        &self.bytes[start..end]
    }

    /// Adds a text. After `NoMemory` the texts are as before.
    pub fn push(&mut self, text: &[u8]) -> Result<(), NoMemory>
        ensures ok { OnOk result (self.new ≡ self.old ++ text.now ∷ []) }
        ensures err { OnErr result (self.new ≡ self.old) }
    {
        self.push_pieces(&[text])
    }

    /// Adds a text that is these pieces behind one another. After `NoMemory` the texts are as before.
    pub fn push_pieces(&mut self, pieces: &[&[u8]]) -> Result<(), NoMemory>
        ensures ok { OnOk result (self.new
            ≡ self.old ++ flat_map (λ piece. piece.now) pieces.now ∷ []) }
        ensures err { OnErr result (self.new ≡ self.old) }
    {
        self.ends.reserve(1)?;
        let kept = self.bytes.len();
        for piece in pieces {
            match self.bytes.extend_from_slice(piece) {
                Ok(()) => {}
                Err(_) => {
                    self.bytes.truncate(kept);
                    return Err(NoMemory);
                }
            }
        }
        self.ends.push_reserved(self.bytes.len());
        Ok(())
    }

    /// Makes this text the last one, and answers its index, counted from 0: it is added at the end, but not where the
    /// last text is the same. After `NoMemory` the texts are as before.
    pub fn keep(&mut self, text: &[u8]) -> Result<usize, NoMemory>
        ensures kept { IfOk result (λ index. slice_get self.new index ≡ Some text.now) }
        ensures last { IfOk result (λ index. index + 1 ≡ length self.new) }
        ensures texts { OnOk result
            ((self.new ≡ self.old) ⊎ (self.new ≡ self.old ++ text.now ∷ [])) }
        ensures same { slice_get self.old (length self.old - 1) ≡ Some text.now
            → self.new ≡ self.old }
        ensures err { OnErr result (self.new ≡ self.old) }
    {
        if let Some(last) = self.len().checked_sub(1) {
            if self.get(last) == text {
                return Ok(last);
            }
        }
        let index = self.len();
        self.push(text)?;
        Ok(index)
    }

    /// Keeps the first `count` texts and drops the others.
    pub fn truncate(&mut self, count: usize)
        requires { count ≤ length self.old }
        ensures { self.new ≡ take count self.old }
    {
        let end = start_of(self.ends.as_slice(), count);
        self.bytes.truncate(end);
        self.ends.truncate(count);
    }
}

// Where the text at an index starts: at the end of the one before it.
fn start_of(ends: &[usize], index: usize) -> usize
    requires { index ≤ length ends.now }
    ensures { result ≡ slice_index_or (0 ∷ ends.now) index result }
{
    match index.checked_sub(1) {
        None => 0,
        Some(before) => ends[before],
    }
}
