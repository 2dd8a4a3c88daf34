ghost use Rattle.std.specs.Prelude.{◌≡◌, ◌∷◌, ◌++◌, ◌<◌, ◌≤◌, [], length, slice_index_or, slice_range, take, IfOk, OnErr, OnOk};
ghost use Rattle.std.specs.List.{flat_map};
ghost use Rattle.hex.specs.Hex.{encode_lower};
ghost use Rattle.tpol_lines.specs.Lines.{line_of};

use crate::hexadecimal::push_hexadecimal;
use std::alloc::Global;
use std::marker::Model;
use tpol_base::{Blob, NoMemory};
use tpol_texts::Texts;

/// Lines that are printed. Contracts see the list of the lines, each a list of bytes with its line end.
///
/// The line of a command differs from the one before by its number alone where client, locality, command code, reply
/// and what became of it are the same. So what stands behind the number is kept once for such lines: each line is a
/// head, and a tail that others may share.
#[derive(Drop)]
pub struct Lines {
    heads: Texts,
    tails: Texts,
    // For each line the number of its tail, counted from 1; 0 where it has none.
    tail_numbers: Vec<usize>,
    // Room for a tail that is made.
    room: Vec<u8>,
}

impl Model for Lines {
    ghost use Rattle.std.specs.Prelude.{List, ℕ};
    ghost use Rattle.tpol_lines.specs.Whole.{HaveTails, whole_lines};

    ghost Value = { List (List ℕ) };

    ghost view = { λ l. whole_lines l.tails l.tail_numbers.items l.heads };

    ghost invariant = { λ l. HaveTails l.tails l.tail_numbers.items l.heads };
}

impl Lines {
    /// No line; it takes no memory.
    pub fn new(alloc: Global) -> Lines
        ensures { result ≡ [] }
    {
        Lines {
            heads: Texts::new(alloc),
            tails: Texts::new(alloc),
            tail_numbers: Vec::new(alloc),
            room: Vec::new(alloc),
        }
    }

    /// The one line of these bytes, with its line end, in their own memory where that has room for it. It fails only
    /// where memory ran out.
    pub fn of_line(alloc: Global, line: Blob) -> Result<Lines, NoMemory>
        ensures { IfOk result (λ lines. lines ≡ line_of line ∷ []) }
    {
        let mut bytes = line.into_vec();
        bytes.push(b'\n')?;
        Lines::of_texts(alloc, Texts::of_bytes(alloc, bytes)?)
    }

    /// Lines that are these texts; they are not copied.
    pub(crate) fn of_texts(alloc: Global, texts: Texts) -> Result<Lines, NoMemory>
        ensures { IfOk result (λ lines. lines ≡ texts) }
    {
        let mut tail_numbers = Vec::new(alloc);
        tail_numbers.resize(texts.len(), 0)?;
        Ok(Lines {
            heads: texts,
            tails: Texts::new(alloc),
            tail_numbers,
            room: Vec::new(alloc),
        })
    }

    /// The number of lines.
    pub fn len(&self) -> usize
        ensures { result ≡ length self.now }
    {
        self.heads.len()
    }

    /// The line at `index`, counted from 0, in two parts.
    pub fn parts(&self, index: usize) -> (&[u8], &[u8])
        requires { index < length self.now }
        ensures { result.0.now ++ result.1.now
            ≡ slice_index_or self.now index (result.0.now ++ result.1.now) }
    {
        let tail = match self.tail_numbers[index].checked_sub(1) {
            None => &[],
            Some(place) => self.tails.get(place),
        };
        (self.heads.get(index), tail)
    }

    /// Adds a line with its line end. After `NoMemory` the lines are as before.
    pub fn push_line(&mut self, line: &str) -> Result<(), NoMemory>
        ensures ok { OnOk result (self.new ≡ self.old ++ line_of line.now ∷ []) }
        ensures err { OnErr result (self.new ≡ self.old) }
    {
        self.push_bytes(line.as_bytes())
    }

    /// Adds the line of these bytes, with its line end. After `NoMemory` the lines are as before.
    pub fn push_bytes(&mut self, line: &[u8]) -> Result<(), NoMemory>
        ensures ok { OnOk result (self.new ≡ self.old ++ line_of line.now ∷ []) }
        ensures err { OnErr result (self.new ≡ self.old) }
    {
        self.push_pieces(&[line, b"\n"])
    }

    /// Adds a line that is these pieces behind one another. After `NoMemory` the lines are as before.
    pub fn push_pieces(&mut self, pieces: &[&[u8]]) -> Result<(), NoMemory>
        ensures ok { OnOk result (self.new
            ≡ self.old ++ flat_map (λ piece. piece.now) pieces.now ∷ []) }
        ensures err { OnErr result (self.new ≡ self.old) }
    {
        self.tail_numbers.reserve(1)?;
        self.heads.push_pieces(pieces)?;
        self.tail_numbers.push_reserved(0);
        Ok(())
    }

    /// Adds the line of a number, of bytes behind it and of the digits of a reply, with its line end. What stands
    /// behind the number is kept once where the last such line has the same. After `NoMemory` the lines are as
    /// before.
    pub(crate) fn push_numbered(
        &mut self,
        number: &[u8],
        behind: &[u8],
        reply: &[u8],
    ) -> Result<(), NoMemory>
        ensures ok { OnOk result (self.new
            ≡ self.old ++ line_of (number.now ++ (behind.now ++ encode_lower reply.now)) ∷ []) }
        ensures err { OnErr result (self.new ≡ self.old) }
    {
        self.tail_numbers.reserve(1)?;
        self.room.clear();
        push_tail(&mut self.room, behind, reply)?;
        self.tails.keep(self.room.as_slice())?;
        self.heads.push(number)?;
        self.tail_numbers.push_reserved(self.tails.len());
        Ok(())
    }

    /// Adds the lines of others from `start` up to `end`, counted from 0. After `NoMemory` the lines are as
    /// before.
    pub fn append(&mut self, others: &Lines, start: usize, end: usize) -> Result<(), NoMemory>
        requires ordered { start ≤ end }
        requires within { end ≤ length others.now }
        ensures ok { OnOk result (self.new ≡ self.old ++ slice_range others.now start end) }
        ensures err { OnErr result (self.new ≡ self.old) }
    {
        let kept = self.len();
        for index in start..end {
            let (head, tail) = others.parts(index);
            match self.push_pieces(&[head, tail]) {
                Ok(()) => {}
                Err(NoMemory) => {
                    self.truncate(kept);
                    return Err(NoMemory);
                }
            }
        }
        Ok(())
    }

    // Leaves the first lines alone, so many.
    fn truncate(&mut self, count: usize)
        requires { count ≤ length self.old }
        ensures { self.new ≡ take count self.old }
    {
        self.heads.truncate(count);
        self.tail_numbers.truncate(count);
    }
}

// Adds what stands behind a line's number: these bytes, the digits of a reply and the line end.
fn push_tail(tail: &mut Vec<u8>, behind: &[u8], reply: &[u8]) -> Result<(), NoMemory>
    ensures { OnOk result (tail.new.items
        ≡ tail.old.items ++ line_of (behind.now ++ encode_lower reply.now)) }
{
    tail.extend_from_slice(behind)?;
    push_hexadecimal(tail, reply)?;
    tail.push(b'\n')?;
    Ok(())
}
