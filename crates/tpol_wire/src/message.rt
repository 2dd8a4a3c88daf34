//! Commands and replies behind their headers, each in one buffer.

ghost use Rattle.std.specs.Prelude.{◌≡◌, ◌≤◌, IfOk, drop, length};
ghost use Rattle.tpol_wire.specs.Spellings.{message_bytes};

use std::alloc::Global;
use tpol_base::{Blob, NoMemory};

/// How many bytes stand before a body: the tag, the size and the code.
const HEADER: usize = 10;

/// How many bytes a message has room for at first; most take no more.
const ROOM: usize = 128;

/// The beginning of a message: the place of its header. What is added at the end is its body.
pub(crate) fn begin(alloc: Global) -> Result<Blob, NoMemory>
    ensures { IfOk result (λ message. length message ≡ 10) }
{
    let mut bytes = Vec::with_capacity(alloc, ROOM)?;
    bytes.extend_from_slice(&[0; HEADER])?;
    Ok(Blob::from_vec(bytes))
}

/// The whole of a message: its tag, its size and its code in the place of its header, and its body behind them
/// (TPM 2.0 Part 1, "Command Structure" and "Response Structure"). It takes no memory.
pub(crate) fn finish(message: Blob, tag: u16, code: u32) -> Blob
    requires { 10 ≤ length message }
    ensures { result ≡ message_bytes tag code (drop 10 message) }
{
    let mut bytes = message.into_vec();
    fill_header(bytes.as_mut_slice(), tag, code);
    Blob::from_vec(bytes)
}

/// Writes the header in its place.
fn fill_header(message: &mut [u8], tag: u16, code: u32)
    requires { 10 ≤ length message.old }
    ensures { message.new ≡ message_bytes tag code (drop 10 message.old) }
{
    // Of the size the last four bytes are written.
    let size = (message.len() % 0x1_0000_0000) as u32;
    message[..2].copy_from_slice(&tag.to_be_bytes());
    message[2..6].copy_from_slice(&size.to_be_bytes());
    message[6..HEADER].copy_from_slice(&code.to_be_bytes());
}
