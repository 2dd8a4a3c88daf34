// A piece of a line, written on the stack.

ghost use Rattle.std.specs.Prelude.{◌≡◌, ◌+◌, ◌++◌, ◌≤◌, [], decimal, length};
ghost use Rattle.tpol_lines.specs.Hex.{code_of_buffer, code_text};

use crate::hexadecimal::{digits_of_buffer, digits_of_code};
use itoa::write_digits;
use std::marker::Model;

// The most bytes of a piece.
const ROOM: usize = 112;

// A piece of a line; contracts see its bytes. It is written from its last word to its first, as the digits of a
// number are, and takes no memory.
#[derive(Drop)]
pub struct Piece {
    bytes: [u8; ROOM],
    start: usize,
}

impl Model for Piece {
    ghost use Rattle.std.specs.Prelude.{◌≤◌, List, ℕ, drop};

    ghost Value = { List ℕ };

    ghost view = { λ p. drop p.start p.bytes };

    ghost invariant = { λ p. p.start ≤ 112 };
}

impl Piece {
    // Nothing yet.
    pub fn new() -> Piece
        ensures { result ≡ [] }
    {
        Piece {
            bytes: [0; ROOM],
            start: ROOM,
        }
    }

    // The bytes in order.
    pub fn as_slice(&self) -> &[u8]
        ensures { result.now ≡ self.now }
    {
        &self.bytes[self.start..]
    }

    // Sets a word before what is there.
    pub fn prepend(&mut self, word: &[u8])
        requires { length word.now + length self.old ≤ 112 }
        ensures word { self.new ≡ word.now ++ self.old }
        ensures len { length self.new ≡ length word.now + length self.old }
    {
        let end = self.start;
        self.start = end - word.len();
        self.bytes[self.start..end].copy_from_slice(word);
    }

    // Sets the digits of a number before what is there.
    pub fn prepend_decimal(&mut self, number: u32)
        requires { 10 + length self.old ≤ 112 }
        ensures digits { self.new ≡ decimal number ++ self.old }
        ensures short { length self.new ≤ 10 + length self.old }
    {
        self.start = write_digits(u64::from(number), &mut self.bytes, self.start);
    }

    // Sets the eight digits of a code before what is there.
    pub fn prepend_code(&mut self, code: u32)
        requires { 8 + length self.old ≤ 112 }
        ensures code { self.new ≡ code_text code ++ self.old }
        ensures len { length self.new ≡ 8 + length self.old }
    {
        self.prepend(&digits_of_code(code));
    }

    // The same of the code of a command or of a reply, or dashes where it is too short to have one.
    pub fn prepend_code_of_buffer(&mut self, buffer: &[u8])
        requires { 8 + length self.old ≤ 112 }
        ensures code { self.new ≡ code_of_buffer buffer.now ++ self.old }
        ensures len { length self.new ≡ 8 + length self.old }
    {
        self.prepend(&digits_of_buffer(buffer));
    }
}
