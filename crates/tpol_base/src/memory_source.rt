//! A source in memory.

ghost use Rattle.std.specs.Prelude.{◌≡◌, Some, length, min, take};

use crate::{Failed, Source};
use std::marker::Model;

/// A source in memory that never fails; contracts see it as the bytes that are left.
#[derive(Drop)]
pub struct MemorySource {
    bytes: Vec<u8>,
    position: usize,
}

impl Model for MemorySource {
    ghost use Rattle.std.specs.Prelude.{List, ℕ, drop, length, ◌≤◌};

    ghost Value = { List ℕ };

    ghost view = { λ s. drop s.position s.bytes.items };

    ghost invariant = { λ s. s.position ≤ length s.bytes.items };
}

impl MemorySource {
    /// A source that gives these bytes.
    pub fn new(bytes: Vec<u8>) -> MemorySource
        ensures { result ≡ bytes.items }
    {
        MemorySource { bytes, position: 0 }
    }
}

impl Source for MemorySource {
    ghost left = { λ s. Some s };

    ghost faults = { λ _. 0 };

    fn read(&mut self, buf: &mut [u8]) -> Result<usize, Failed> {
        let count = copy_front(&self.bytes[self.position..], buf);
        self.position += count;
        Ok(count)
    }
}

// Copies as many bytes of `rest` as fit into the front of `buf`.
fn copy_front(rest: &[u8], buf: &mut [u8]) -> usize
    ensures count { result ≡ min (length rest.now) (length buf.old) }
    ensures copied { take result buf.new ≡ take result rest.now }
{
    let count = rest.len().min(buf.len());
    buf[..count].copy_from_slice(&rest[..count]);
    count
}
