//! Sources, sinks and shelves: what no clause says of them, since standard input and output and a folder tell nothing of
//! their content, and those in memory once with ample memory.
//!
//! The proof of a function proves the drop of each value that it holds, wherever it may end early. So a shelf is held
//! by a function that ends in one place, and what is asked of it stands in others that are lent it.

ghost use Rattle.std.specs.Prelude.{◌≡◌, ◌++◌, IfOk};

use std::alloc::{AllocError, Global};
use std::io::Write;
use std::{fs, io};
use tpol_base::{
    Failed, FolderShelf, Lapse, MemoryShelf, Shelf, Sink, Source, StdSink, StdSource,
    is_policy_name,
};

/// Whether the shelf takes these bytes under this name.
fn puts<S: Shelf>(shelf: &mut S, name: &str, bytes: &[u8]) -> bool {
    shelf.put(name, bytes) == Ok(())
}

/// Whether the shelf hands out these bytes under this name.
fn holds<S: Shelf>(shelf: &mut S, name: &str, bytes: &[u8]) -> bool {
    match shelf.fetch(name) {
        Ok(Some(blob)) => blob.as_slice() == bytes,
        _ => false,
    }
}

/// Whether the shelf has no document of this name.
fn lacks<S: Shelf>(shelf: &mut S, name: &str) -> bool {
    match shelf.fetch(name) {
        Ok(found) => found.is_none(),
        Err(_) => false,
    }
}

/// Whether the shelf lists so many names.
fn lists<S: Shelf>(shelf: &mut S, count: usize) -> bool {
    match shelf.names() {
        Ok(names) => names.len() == count,
        Err(_) => false,
    }
}

/// Whether the shelf, which is empty, hands out what was put last under a name.
fn keeps_the_last<S: Shelf>(shelf: &mut S) -> bool {
    lists(shelf, 0)
        && lacks(shelf, "a.json")
        && puts(shelf, "a.json", b"first, and longer")
        && puts(shelf, "a.json", b"second")
        && holds(shelf, "a.json", b"second")
        && lists(shelf, 1)
}

#[test]
fn memory_keeps_documents(rt: HostRuntime) {
    let mut shelf = MemoryShelf::new(rt.alloc());
    assert!(rt; keeps_the_last(&mut shelf));
}

fn is_written(rt: &HostRuntime, path: &str) -> bool {
    fs::write(rt, path, "not listed").is_ok()
}

// Of three names two are none of a document, and the third is that of a folder.
fn lists_documents_alone<S: Shelf>(rt: &HostRuntime, shelf: &mut S) -> bool {
    is_written(rt, "policies/notes.txt")
        && is_written(rt, "policies/.json")
        && fs::create_dir(rt, "policies/b.json").is_ok()
        && lacks(shelf, "b.json")
        && puts(shelf, "a.scene", b"{}")
        && lists(shelf, 2)
}

fn is_there(rt: &HostRuntime, path: &str) -> bool {
    fs::exists(rt, path).is_ok_and(|found| found)
}

// A part file of another import is left alone, and where nothing can take a folder's place no part file stays.
fn takes_parts_of_its_own<S: Shelf>(rt: &HostRuntime, shelf: &mut S) -> bool {
    is_written(rt, "policies/c.json.0.part")
        && puts(shelf, "c.json", b"third")
        && holds(shelf, "c.json", b"third")
        && is_there(rt, "policies/c.json.0.part")
        && !is_there(rt, "policies/c.json.1.part")
        && shelf.put("b.json", b"{}") == Err(Lapse::Failed)
        && !is_there(rt, "policies/b.json.0.part")
}

/// Whether the shelf hands out so many bytes under this name.
fn holds_so_many<S: Shelf>(shelf: &mut S, name: &str, count: usize) -> bool {
    match shelf.fetch(name) {
        Ok(Some(blob)) => blob.len() == count,
        _ => false,
    }
}

/// Whether of a document of two bytes more than one may have one byte more is handed out.
fn hands_out_too_many<S: Shelf>(alloc: Global, shelf: &mut S) -> bool {
    match vec![in alloc; 0u8; 1_048_578] {
        Ok(long) => {
            puts(shelf, "long.json", long.as_slice())
                && holds_so_many(shelf, "long.json", 1_048_577)
        }
        Err(_) => false,
    }
}

/// A shelf over a folder that is not there yet.
fn folder(rt: &HostRuntime) -> Result<FolderShelf<HostRuntime>, AllocError> {
    let folder = String::from_str(rt.alloc(), "policies")?;
    Ok(FolderShelf::new(rt.clone()?, folder))
}

fn folder_keeps_documents(rt: &HostRuntime) -> bool {
    match folder(rt) {
        Ok(mut shelf) => {
            keeps_the_last(&mut shelf)
                && lists_documents_alone(rt, &mut shelf)
                && takes_parts_of_its_own(rt, &mut shelf)
                && hands_out_too_many(rt.alloc(), &mut shelf)
        }
        Err(_) => false,
    }
}

#[test]
fn a_folder_keeps_documents(rt: HostRuntime) {
    assert!(rt; folder_keeps_documents(&rt));
}

fn reads_two_bytes<S: Source>(source: &mut S) -> bool {
    let mut piece = [0; 4];
    source.read(&mut piece) == Ok(2)
        && &piece[..2] == [7, 9].as_slice()
        && source.read(&mut piece) == Ok(0)
}

#[test]
fn standard_input_is_read_in_order(rt: HostRuntime) {
    let mut source = StdSource::new([7, 9].as_slice());
    assert!(rt; reads_two_bytes(&mut source));
}

// Of the last two bytes one finds room, and then the writer takes nothing.
fn writes_four_bytes<S: Sink>(sink: &mut S) -> bool {
    sink.write(b"abc") == Ok(()) && sink.write(b"de") == Err(Failed)
}

#[test]
fn standard_output_takes_all_of_a_line(rt: HostRuntime) {
    let mut room = [0; 4];
    let mut sink = StdSink::new(room.as_mut_slice());
    assert!(rt; writes_four_bytes(&mut sink));
}

// What a sink over a list of bytes was given, as its clauses tell it: both lines, one behind the other.
fn both_lines(alloc: Global, first: &[u8], second: &[u8]) -> Result<Vec<u8>, Failed>
    ensures { IfOk result (λ bytes. bytes.items ≡ first.now ++ second.now) }
{
    let mut sink = StdSink::new(Vec::new(alloc));
    sink.write(first)?;
    sink.write(second)?;
    sink.writer().to_vec(alloc).map_err(|_| Failed)
}

#[test]
fn a_sink_over_a_list_tells_its_bytes(rt: HostRuntime) {
    let told = both_lines(rt.alloc(), b"digest 3c87\n", b"path 1\n");
    assert!(rt; told.is_ok_and(|bytes| bytes.as_slice() == b"digest 3c87\npath 1\n".as_slice()));
}

/// A writer that takes one byte a call.
#[derive(Drop)]
struct Slow<'a>(&'a mut [u8]);

impl<'a> Write for Slow<'a> {
    fn write(&mut self, bytes: &[u8]) -> io::Result<usize> {
        self.0.write(&bytes[..bytes.len().min(1)])
    }

    fn flush(&mut self) -> io::Result<()> {
        Ok(())
    }
}

fn takes_two_lines(room: &mut [u8]) -> bool {
    let mut sink = StdSink::new(Slow(room));
    sink.write(b"abcd") == Ok(()) && sink.write(b"ef") == Ok(())
}

#[test]
fn a_line_is_written_in_pieces(rt: HostRuntime) {
    let mut room = [0; 6];
    assert!(rt; takes_two_lines(&mut room) && &room == b"abcdef");
}

static NAMES: [(&str, bool); 8] = [
    ("disk", true),
    ("v1.2", true),
    (
        "a23456789012345678901234567890123456789012345678901234567890-_.Z",
        true,
    ),
    ("", false),
    (".hidden", false),
    ("a/b", false),
    ("caf\u{e9}", false),
    (
        "a23456789012345678901234567890123456789012345678901234567890-_.Zz",
        false,
    ),
];

fn judges_names() -> bool {
    for (name, is_one) in &NAMES {
        if is_policy_name(name) != *is_one {
            return false;
        }
    }
    true
}

#[test]
fn policies_have_names(rt: HostRuntime) {
    assert!(rt; judges_names());
}
