//! Outside values: what NV_Read, NV_Write and NV_Increment answer by TPM 2.0 Part 3, done by hand.
//!
//! The proof of a function proves the drop of each value that it holds, wherever it may end early. So a table is held
//! by a function that ends in one place, and what is asked of it stands in others that are lent it.

ghost use Rattle.std.specs.Prelude.{◌≡◌, length, IfOk};
ghost use Rattle.tpm_nv.specs.Contents.{HasContent};

use crate::answers::code_of;
use std::alloc::Global;
use tpm_nv::NvTable;
use tpol_base::{Blob, NoMemory, Text};
use tpol_name::{IndexEntry, Indices, NvPublic};

/// An ordinary index that the owner may read and write.
const ORDINARY: u32 = 0x0002_0002;

/// The same, which takes nothing but a whole content.
const WRITEALL: u32 = 0x0002_1002;

/// A counter that was never written.
const COUNTER: u32 = 0x0002_0012;

/// A counter that was written.
const WRITTEN_COUNTER: u32 = 0x2002_0012;

/// A call of the index of this handle: an offset and how many bytes are read, an offset and the bytes that are
/// written, or an increment.
#[derive(Clone, Copy)]
enum Call {
    Read(u32, u16, u16),
    Write(u32, u16, &'static [u8]),
    Increment(u32),
}

/// Calls over index 1, which has these attributes and eight zero bytes, and index 2, a written counter of this count;
/// with the code that each is answered with, 0 of a success, and the content of index 1 at their end.
#[derive(Clone, Copy)]
struct Case {
    attributes: u32,
    count: &'static [u8; 8],
    calls: &'static [(Call, u32)],
    content: &'static [u8],
}

static CASES: [Case; 6] = [
    Case {
        attributes: ORDINARY,
        count: &[0; 8],
        calls: &[
            (Call::Read(1, 0, 1), 0x14a),
            (Call::Write(1, 9, b""), 0x2c4),
            (Call::Write(1, 5, b"abcd"), 0x146),
            (Call::Write(1, 8, b""), 0),
            (Call::Write(1, 5, b"abc"), 0),
            (Call::Write(2, 0, b"abc"), 0x282),
            (Call::Read(1, 0, 8), 0),
            (Call::Read(1, 8, 0), 0),
            (Call::Read(1, 9, 0), 0x2c4),
            (Call::Read(1, 6, 3), 0x146),
        ],
        content: b"\0\0\0\0\0abc",
    },
    Case {
        attributes: WRITEALL,
        count: &[0; 8],
        calls: &[
            (Call::Write(1, 0, b"1234567"), 0x146),
            (Call::Write(1, 0, b"12345678"), 0),
        ],
        content: b"12345678",
    },
    Case {
        attributes: ORDINARY,
        count: &[0; 8],
        calls: &[(Call::Increment(1), 0x282)],
        content: &[0; 8],
    },
    Case {
        attributes: COUNTER,
        count: &[0xff; 8],
        calls: &[(Call::Increment(1), 0x146)],
        content: &[0; 8],
    },
    Case {
        attributes: COUNTER,
        count: b"\0\0\0\0\0\0\x01\xff",
        calls: &[(Call::Increment(1), 0)],
        content: b"\0\0\0\0\0\0\x02\0",
    },
    // A counter that was never written goes on from the greatest of all.
    Case {
        attributes: COUNTER,
        count: b"\0\0\0\0\0\0\x01\xff",
        calls: &[(Call::Increment(1), 0), (Call::Increment(1), 0)],
        content: b"\0\0\0\0\0\0\x02\x01",
    },
];

/// An index with a content of eight bytes.
fn index(alloc: Global, index: u32, attributes: u32, content: &[u8]) -> Result<IndexEntry, NoMemory>
    requires eight { length content.now ≡ 8 }
    ensures content { IfOk result HasContent }
    ensures handle { IfOk result (λ entry. entry.public.index ≡ index) }
{
    let content = Blob::from_slice(alloc, content)?;
    Ok(IndexEntry {
        path: Text::new(alloc),
        public: NvPublic {
            index,
            attributes,
            auth_policy: Blob::new(alloc),
            size: 8,
        },
        auth: Blob::new(alloc),
        content,
    })
}

/// Index 1 with these attributes and zero bytes, and index 2, a written counter of this count.
fn table(alloc: Global, attributes: u32, count: &[u8; 8]) -> Result<NvTable, NoMemory> {
    let mut indices = Indices::new(alloc);
    indices.push(index(alloc, 1, attributes, &[0; 8])?)?;
    indices.push(index(alloc, 2, WRITTEN_COUNTER, count)?)?;
    NvTable::new(alloc, indices)
}

/// The code that a call is answered with, where the table has its index.
fn code(table: &mut NvTable, call: &Call) -> Option<u32> {
    let (Call::Read(index, _, _) | Call::Write(index, _, _) | Call::Increment(index)) = call;
    table.find(*index)?;
    match call {
        Call::Read(_, offset, size) => Some(code_of(table.read(*index, *offset, *size))),
        Call::Write(_, offset, bytes) => Some(code_of(table.write(*index, *offset, bytes))),
        Call::Increment(_) => Some(code_of(table.increment(*index))),
    }
}

fn answers(table: &mut NvTable, calls: &[(Call, u32)]) -> bool {
    for (call, wanted) in calls {
        if code(table, call) != Some(*wanted) {
            return false;
        }
    }
    true
}

fn has_content(table: &NvTable, content: &[u8]) -> bool {
    match table.find(1) {
        Some(entry) => entry.content.as_slice() == content,
        None => false,
    }
}

fn copies_both(alloc: Global, table: &NvTable) -> bool {
    match table.to_indices(alloc) {
        Ok(indices) => indices.len() == 2,
        Err(_) => false,
    }
}

fn is_answered(alloc: Global, case: &Case) -> bool {
    match table(alloc, case.attributes, case.count) {
        Ok(mut table) => {
            answers(&mut table, case.calls)
                && has_content(&table, case.content)
                && copies_both(alloc, &table)
        }
        Err(_) => false,
    }
}

#[test]
fn reads_writes_and_increments(rt: HostRuntime) {
    for case in &CASES {
        assert!(rt; is_answered(rt.alloc(), case));
    }
}
