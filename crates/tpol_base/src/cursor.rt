//! Reading numbers and bytes from the front of a slice.

ghost use Rattle.std.specs.Prelude.{◌≡◌, ◌<◌, ◌↔◌, length, take, drop, IsNone, IfSome, IfNone, Option};
ghost use Rattle.std.specs.Int.{from_be_bytes, w8, w16, w32, w64};
ghost use Rattle.tpol_base.specs.Cursor.{NumberTaken};

use std::marker::Model;

/// A reader of a lent slice, from its front; contracts see the bytes that are left. Numbers are big-endian.
///
/// Each call answers `None` exactly where too few bytes are left, and then takes none. No call takes memory.
#[derive(Drop)]
pub struct Cursor<'a> {
    rest: &'a [u8],
}

impl<'a> Model for Cursor<'a> {
    ghost use Rattle.std.specs.Prelude.{List, ℕ};

    ghost Value = { List ℕ };

    ghost view = { λ c. c.rest.now };
}

impl<'a> Cursor<'a> {
    /// A cursor before the first of these bytes.
    pub fn new(bytes: &'a [u8]) -> Cursor<'a>
        ensures { result ≡ bytes.now }
    {
        Cursor { rest: bytes }
    }

    /// The number of bytes that are left.
    pub fn left(&self) -> usize
        ensures { result ≡ length self.now }
    {
        self.rest.len()
    }

    /// The next `n` bytes.
    pub fn take(&mut self, n: usize) -> Option<&'a [u8]>
        ensures none { IsNone result ↔ (length self.old < n) }
        ensures taken { IfSome result (λ taken. taken.now ≡ take n self.old) }
        ensures rest { IfSome result (λ _. self.new ≡ drop n self.old) }
        ensures same { IfNone result (self.new ≡ self.old) }
    {
        if self.rest.len() < n {
            return None;
        }
        let (taken, rest) = self.rest.split_at(n);
        self.rest = rest;
        Some(taken)
    }

    /// The next byte.
    pub fn u8(&mut self) -> Option<u8>
        ensures { NumberTaken w8 self.old self.new result }
    {
        let bytes = self.take(1)?;
        Some(bytes[0])
    }

    /// The number in the next 2 bytes.
    pub fn u16(&mut self) -> Option<u16>
        ensures { NumberTaken w16 self.old self.new result }
    {
        let bytes = self.take(2)?;
        Some(u16::from_be_bytes([bytes[0], bytes[1]]))
    }

    /// The number in the next 4 bytes.
    pub fn u32(&mut self) -> Option<u32>
        ensures { NumberTaken w32 self.old self.new result }
    {
        let bytes = self.take(4)?;
        Some(u32::from_be_bytes([bytes[0], bytes[1], bytes[2], bytes[3]]))
    }

    /// The number in the next 8 bytes.
    pub fn u64(&mut self) -> Option<u64>
        ensures { NumberTaken w64 self.old self.new result }
    {
        let bytes = self.take(8)?;
        Some(u64::from_be_bytes([
            bytes[0], bytes[1], bytes[2], bytes[3], bytes[4], bytes[5], bytes[6], bytes[7],
        ]))
    }
}
