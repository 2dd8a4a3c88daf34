//! The content of an index.

ghost use Rattle.std.specs.Prelude.{◌≡◌, ◌+◌, ◌≤◌, length};
ghost use Rattle.std.specs.Int.{from_be_bytes, w64};
ghost use Rattle.tpm_nv.specs.Contents.{spliced, written_entry};

use std::alloc::Global;
use std::mem::replace;
use tpol_base::attributes::NV_WRITTEN;
use tpol_base::{Blob, Cursor};
use tpol_name::IndexEntry;

// Writes bytes into the content of an index, from the offset on, and sets WRITTEN. The content keeps its
// length.
pub fn write_at(alloc: Global, entry: &mut IndexEntry, offset: usize, bytes: &[u8])
    requires within { offset + length bytes.now ≤ length entry.old.content }
    ensures written { entry.new ≡ written_entry offset bytes.now entry.old }
{
    let mut content = replace(&mut entry.content, Blob::new(alloc)).into_vec();
    overwrite(content.as_mut_slice(), offset, bytes);
    entry.content = Blob::from_vec(content);
    entry.public.attributes |= NV_WRITTEN;
}

// Puts bytes in the place of as many, from the offset on.
fn overwrite(content: &mut [u8], offset: usize, bytes: &[u8])
    requires { offset + length bytes.now ≤ length content.old }
    ensures { content.new ≡ spliced offset bytes.now content.old }
{
    content[offset..offset + bytes.len()].copy_from_slice(bytes);
}

// The count that the content of a counter is.
pub fn count_of(content: &[u8]) -> u64
    requires { length content.now ≡ 8 }
    ensures { result ≡ from_be_bytes w64 content.now }
{
    Cursor::new(content).u64().unwrap()
}
