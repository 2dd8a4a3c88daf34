//! The files of a folder's documents.

ghost use Rattle.std.specs.Prelude.{◌≡◌, ◌≢◌, None, Some, Ok, Err, IfOk, IfErr};
ghost use Rattle.std.specs.IoError.{error_kind};

use crate::{Blob, Text, Texts, is_policy_name, most_handed_out};
use std::alloc::{AllocError, Global};
use std::io::{ErrorKind, Read, Write};
use std::rt::Files;
use std::{fs, io};

/// How many names of part files are tried. Taken are those of imports that run now, and of such as were ended by
/// force.
const PARTS: u32 = 65_536;

/// How many bytes one read of a document asks for: most documents are no longer.
const PIECE: usize = 2_048;

/// The first 1,048,577 bytes of this file; `None` where nothing stands there, or what is no regular file.
pub fn read_document<R: Files + AllocGlobal>(
    rt: &R,
    folder: &str,
    name: &str,
) -> io::Result<Option<Blob>> {
    let path = format!(in rt.alloc(); "{folder}/{name}")?;
    if !is_regular(rt, path.as_str())? {
        return Ok(None);
    }
    match if_there(fs::open(rt, path.as_str()))? {
        Some(file) => Ok(Some(front_of(rt.alloc(), file)?)),
        None => Ok(None),
    }
}

fn front_of<F: Read + Drop>(alloc: Global, file: F) -> io::Result<Blob> {
    let most = most_handed_out();
    let mut front = file.take(most as u64);
    let mut bytes = Vec::new(alloc);
    let mut piece = [0; PIECE];
    // Each read but the last hands out a byte at least, or was interrupted.
    for _read in 0..most.saturating_mul(2) {
        match front.read(&mut piece) {
            Ok(0) => return Ok(Blob::from_vec(bytes)),
            Ok(count) => bytes.extend_from_slice(&piece[..count])?,
            Err(error) if error.kind() == ErrorKind::Interrupted => {}
            Err(error) => return Err(error),
        }
    }
    Err(io::Error::from(ErrorKind::Interrupted))
}

/// Writes the document into a part file of its own, in the same folder, which is made where it is not there, and puts
/// that file in the document's place when all of it is written. Where that fails the part file is removed, if it can
/// be, and the document that stood there before stands there still.
pub fn write_document<R: Files + AllocGlobal>(
    rt: &R,
    folder: &str,
    name: &str,
    bytes: &[u8],
) -> io::Result<()> {
    fs::create_dir_all(rt, folder)?;
    let path = format!(in rt.alloc(); "{folder}/{name}")?;
    let (part, file) = new_part(rt, path.as_str())?;
    let placed = match write_whole(file, bytes) {
        Ok(()) => fs::rename(rt, part.as_str(), path.as_str()),
        Err(error) => Err(error),
    };
    if placed.is_err() {
        // The first error is the one to tell.
        let _removed = fs::remove_file(rt, part.as_str());
    }
    placed
}

// A file that was not there, so that no other process writes it and no link is followed, with its path.
fn new_part<R: Files + AllocGlobal>(rt: &R, path: &str) -> io::Result<(String, R::File)> {
    for number in 0..PARTS {
        let part = format!(in rt.alloc(); "{path}.{number}.part")?;
        match fs::File::create_new(rt, part.as_str()) {
            Ok(file) => return Ok((part, file)),
            Err(error) if error.kind() == ErrorKind::AlreadyExists => {}
            Err(error) => return Err(error),
        }
    }
    Err(io::Error::from(ErrorKind::AlreadyExists))
}

// A close tells nothing, so the system is asked before whether all arrived.
fn write_whole<F: Write + fs::OpenFile + Drop>(mut file: F, bytes: &[u8]) -> io::Result<()> {
    file.write_all(bytes)?;
    file.sync_all()
}

/// The names of the regular files of this folder that are named as documents; none where it is not there.
pub fn list_documents<R: Files + AllocGlobal + Clone + Drop>(
    rt: &R,
    folder: &str,
) -> io::Result<Texts> {
    let mut names = Texts::new(rt.alloc());
    let Some(entries) = if_there(fs::read_dir(rt, folder))? else {
        return Ok(names);
    };
    for entry in entries {
        let entry = match entry {
            Ok(entry) => entry,
            // A name that is no text is not a policy's.
            Err(error) if error.kind() == ErrorKind::InvalidFilename => continue,
            Err(error) => return Err(error),
        };
        if is_listed(entry.file_name()) && is_regular(rt, entry.path().as_str())? {
            add_name(rt.alloc(), &mut names, entry.file_name())?;
        }
    }
    Ok(names)
}

fn is_listed(name: &str) -> bool {
    match (name.strip_suffix(".json"), name.strip_suffix(".scene")) {
        (Some(stem), _) | (None, Some(stem)) => is_policy_name(stem),
        (None, None) => false,
    }
}

fn add_name(alloc: Global, names: &mut Texts, name: &str) -> Result<(), AllocError> {
    let name = Text::from_str(alloc, name).map_err(|_| AllocError)?;
    names.push(name).map_err(|_| AllocError)
}

// Whether a regular file stands at this path, after links are followed. It opens nothing: to open a pipe
// would be to wait for its writer.
fn is_regular<R: Files>(rt: &R, path: &str) -> io::Result<bool> {
    match if_there(fs::metadata(rt, path))? {
        Some(metadata) => Ok(metadata.is_file()),
        None => Ok(false),
    }
}

// What was found, or none where nothing is there.
fn if_there<T>(answer: io::Result<T>) -> io::Result<Option<T>>
    ensures there { IfOk answer (λ found. result ≡ Ok (Some found)) }
    ensures absent { IfErr answer (λ error. error_kind error ≡ ErrorKind.NotFound
        → result ≡ Ok None) }
    ensures fault { IfErr answer (λ error. error_kind error ≢ ErrorKind.NotFound
        → result ≡ Err error) }
{
    match answer {
        Ok(found) => Ok(Some(found)),
        Err(error) if error.kind() == ErrorKind::NotFound => Ok(None),
        Err(error) => Err(error),
    }
}
