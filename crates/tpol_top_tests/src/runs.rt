//! Whole runs over objects in memory whose calls fail where a run says so.
//!
//! The proof of a function proves the drop of each value that it holds, wherever it may end early. So functions that
//! may end early are given what they fill, and a sink is let go by one call.

use std::alloc::Global;
use tpol_base::{Failing, Lapse, MemoryShelf, MemorySource, NoMemory, Shelf, StdSink};
use tpol_top::{Status, policy_main};

// A sink over a list of bytes that fails where a run says so.
type Printer = Failing<StdSink<Vec<u8>>>;

/// A command line with its input, the documents of the shelf by their names, the calls of the source, of the sink
/// and of the shelf that fail, counted from 1, and what the run answers and the lines that it prints.
#[derive(Clone, Copy)]
pub struct Run<'a> {
    pub words: &'a str,
    pub input: &'a str,
    pub documents: &'a [(&'a str, &'a str)],
    pub source: &'a [u64],
    pub sink: &'a [u64],
    pub shelf: &'a [u64],
    pub status: Status,
    pub printed: &'a [&'a str],
}

fn push_words(list: &mut Vec<String>, alloc: Global, words: &str) -> Result<(), NoMemory> {
    for word in words.split_ascii_whitespace() {
        list.push(String::from_str(alloc, word)?)?;
    }
    Ok(())
}

// The words of a command line, which blanks part.
fn words_of(alloc: Global, words: &str) -> Result<Vec<String>, NoMemory> {
    let mut list = Vec::new(alloc);
    push_words(&mut list, alloc, words)?;
    Ok(list)
}

// Puts documents on a shelf, each under its name.
fn put_documents(shelf: &mut MemoryShelf, documents: &[(&str, &str)]) -> Result<(), Lapse> {
    for (name, text) in documents {
        shelf.put(name, text.as_bytes())?;
    }
    Ok(())
}

// A shelf with these documents.
fn shelf_of(alloc: Global, documents: &[(&str, &str)]) -> Result<MemoryShelf, Lapse> {
    let mut shelf = MemoryShelf::new(alloc);
    put_documents(&mut shelf, documents)?;
    Ok(shelf)
}

fn calls(alloc: Global, failing: &[u64]) -> Result<Vec<u64>, NoMemory> {
    Ok(failing.to_vec(alloc)?)
}

fn source(alloc: Global, input: &[u8], failing: &[u64]) -> Result<Failing<MemorySource>, NoMemory> {
    let failing = calls(alloc, failing)?;
    Ok(Failing::new(MemorySource::new(input.to_vec(alloc)?), failing))
}

fn sink(alloc: Global, failing: &[u64]) -> Result<Printer, NoMemory> {
    let failing = calls(alloc, failing)?;
    Ok(Failing::new(StdSink::new(Vec::new(alloc)), failing))
}

fn shelf(alloc: Global, run: &Run) -> Result<Failing<MemoryShelf>, Lapse> {
    let failing = calls(alloc, run.shelf)?;
    Ok(Failing::new(shelf_of(alloc, run.documents)?, failing))
}

// What a run over these objects answers.
fn answer_over(
    alloc: Global,
    words: &Vec<String>,
    source: &mut Failing<MemorySource>,
    sink: &mut Printer,
    shelf: &mut Failing<MemoryShelf>,
) -> Status {
    policy_main(alloc, words, source, sink, shelf)
}

// The same over a new shelf.
fn answer_from(
    alloc: Global,
    words: &Vec<String>,
    run: &Run,
    source: &mut Failing<MemorySource>,
    sink: &mut Printer,
) -> Result<Status, Lapse> {
    let mut shelf = shelf(alloc, run)?;
    Ok(answer_over(alloc, words, source, sink, &mut shelf))
}

// The same over a new source, too.
fn answer_to(
    alloc: Global,
    words: &Vec<String>,
    run: &Run,
    sink: &mut Printer,
) -> Result<Status, Lapse> {
    let mut source = source(alloc, run.input.as_bytes(), run.source)?;
    answer_from(alloc, words, run, &mut source, sink)
}

// What a run answers that prints to this sink.
fn answer(alloc: Global, run: &Run, sink: &mut Printer) -> Result<Status, Lapse> {
    let words = words_of(alloc, run.words)?;
    answer_to(alloc, &words, run, sink)
}

// Whether a text is these lines.
fn has_lines(text: &[u8], lines: &[&str]) -> bool {
    let mut rest = text;
    for line in lines {
        match rest.strip_prefix(line.as_bytes()) {
            Some(behind) => rest = behind,
            None => return false,
        }
    }
    rest.is_empty()
}

fn has_printed(sink: &Printer, lines: &[&str]) -> bool {
    has_lines(sink.inner().writer().as_slice(), lines)
}

/// Whether a run answers and prints what the table says.
pub fn ends_as_told(alloc: Global, run: &Run) -> bool {
    match sink(alloc, run.sink) {
        Ok(mut sink) => {
            let is_told = answer(alloc, run, &mut sink) == Ok(run.status)
                && has_printed(&sink, run.printed);
            drop(sink);
            is_told
        }
        Err(_) => false,
    }
}
