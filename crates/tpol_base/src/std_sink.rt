//! A writer of std as a sink.

ghost use Rattle.std.specs.Prelude.{◌≡◌};
ghost use Rattle.tpol_base.specs.Adapters as adapters;
ghost use Rattle.tpol_base.specs.Adapters.{sink_faults};

use crate::{Failed, Sink};
use std::io::Write;

/// Standard output, or any other writer of std, as a sink. It raises its count by one at each `Err` of the
/// writer and at each write that takes nothing of a piece that is not empty. It tells what its writer tells:
/// of a `Vec` its bytes, of standard output nothing.
#[derive(Drop)]
pub struct StdSink<W: Write> {
    writer: W,
    faults: u64,
}

impl<W: Write> StdSink<W> {
    /// A sink over a writer that has not failed.
    pub fn new(writer: W) -> StdSink<W>
        ensures writer { adapters.writer result ≡ writer }
        ensures no_fault { sink_faults result ≡ 0 }
    {
        StdSink { writer, faults: 0 }
    }

    /// The writer.
    pub fn writer(&self) -> &W
        ensures { result.now ≡ adapters.writer self.now }
    {
        &self.writer
    }
}

impl<W: Write> Sink for StdSink<W> {
    ghost contents = { λ s. W.contents (adapters.writer s) };

    ghost faults = { λ s. sink_faults s };

    fn write(&mut self, bytes: &[u8]) -> Result<(), Failed> {
        let mut written = 0;
        while written < bytes.len() {
            match self.writer.write(&bytes[written..]) {
                Ok(count) if count > 0 => written += count,
                _ => {
                    self.faults = self.faults.saturating_add(1);
                    return Err(Failed);
                }
            }
        }
        Ok(())
    }
}
