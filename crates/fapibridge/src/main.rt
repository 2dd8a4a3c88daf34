//! The program: it makes the three adapters, hands them to the top call with the words behind the
//! program's name, and ends with the status.
#![tactic(auto)]

use std::io::ErrorKind;
use std::process::ExitCode;
use std::{env, io};
use tpol_base::{FolderShelf, NoMemory, StdSink, StdSource};
use tpol_bridge::{Status, bridge_main};

// The folder of the scenes that a command names, and of the policies that they name.
const SHELF: &str = "policies";

fn main(rt: HostRuntime) -> ExitCode {
    let status = match run(&rt) {
        Ok(status) => status,
        Err(NoMemory) => Status::NoMemory,
    };
    ExitCode::from(status.number())
}

fn run(rt: &HostRuntime) -> Result<Status, NoMemory> {
    let alloc = rt.alloc();
    let words = words_of(rt)?;
    let folder = String::from_str(alloc, SHELF)?;
    let mut source = StdSource::new(rt.reader());
    let mut out = StdSink::new(io::writer(rt));
    let mut shelf = FolderShelf::new(rt.clone()?, folder);
    Ok(bridge_main(alloc, &words, &mut source, &mut out, &mut shelf))
}

// The words behind the program's name. Where they are no text there is no command: then none is given.
fn words_of(rt: &HostRuntime) -> Result<Vec<String>, NoMemory> {
    let mut words = Vec::new(rt.alloc());
    match env::args(rt) {
        Ok(args) => {
            for word in args.skip(1) {
                words.push(word)?;
            }
            Ok(words)
        }
        Err(error) if error.kind() == ErrorKind::OutOfMemory => Err(NoMemory),
        Err(_) => Ok(words),
    }
}
