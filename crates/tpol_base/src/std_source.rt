//! A reader of std as a source.

ghost use Rattle.std.specs.Prelude.{◌≡◌};
ghost use Rattle.tpol_base.specs.Adapters as adapters;
ghost use Rattle.tpol_base.specs.Adapters.{source_faults};

use crate::{Failed, Source};
use std::io::Read;

/// Standard input, or any other reader of std, as a source. It raises its count by one at each `Err` of the
/// reader. It tells what its reader tells: of a slice the bytes that are left, of standard input nothing.
#[derive(Drop)]
pub struct StdSource<R: Read> {
    reader: R,
    faults: u64,
}

impl<R: Read> StdSource<R> {
    /// A source over a reader that has not failed.
    pub fn new(reader: R) -> StdSource<R>
        ensures reader { adapters.reader result ≡ reader }
        ensures no_fault { source_faults result ≡ 0 }
    {
        StdSource { reader, faults: 0 }
    }
}

impl<R: Read> Source for StdSource<R> {
    ghost left = { λ s. R.remaining (adapters.reader s) };

    ghost faults = { λ s. source_faults s };

    fn read(&mut self, buf: &mut [u8]) -> Result<usize, Failed> {
        match self.reader.read(buf) {
            Ok(count) => Ok(count),
            Err(_) => {
                self.faults = self.faults.saturating_add(1);
                Err(Failed)
            }
        }
    }
}
