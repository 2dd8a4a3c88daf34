//! The directory of a machine's entities.

ghost use Rattle.std.specs.Prelude.{◌≡◌, ◌++◌, IfOk, OnOk, map};
ghost use Rattle.tpol_name.specs.Directories.{directory_of, line_of_index, line_of_object};

use crate::{
    DirEntry, Directory, IndexEntry, ObjectEntry, Setup, nv_name_once_written, object_name,
};
use std::alloc::Global;
use tpol_base::{NoMemory, Sequence};

/// The directory of a setup: its objects and then its indices, in order. The Name of an index is that
/// which it has once it is written.
pub fn directory(alloc: Global, setup: &Setup) -> Result<Directory, NoMemory>
    ensures lines { IfOk result (λ lines. lines ≡ directory_of setup.now) }
{
    let mut lines = Sequence::new(alloc);
    list_objects(&mut lines, setup.objects.as_slice())?;
    list_indices(&mut lines, setup.indices.as_slice())?;
    Ok(lines)
}

// Adds a line for each object.
fn list_objects(lines: &mut Directory, objects: &[ObjectEntry]) -> Result<(), NoMemory>
    ensures { OnOk result (lines.new ≡ lines.old ++ map line_of_object objects.now) }
{
    for object in objects {
        lines.push(object_line(object)?)?;
    }
    Ok(())
}

// Adds a line for each index.
fn list_indices(lines: &mut Directory, indices: &[IndexEntry]) -> Result<(), NoMemory>
    ensures { OnOk result (lines.new ≡ lines.old ++ map line_of_index indices.now) }
{
    for index in indices {
        lines.push(index_line(index)?)?;
    }
    Ok(())
}

fn object_line(object: &ObjectEntry) -> Result<DirEntry, NoMemory>
    ensures { IfOk result (λ line. line ≡ line_of_object object.now) }
{
    Ok(DirEntry {
        path: object.path.clone()?,
        handle: object.handle,
        name: object_name(&object.public),
        attributes: object.public.attributes,
    })
}

fn index_line(index: &IndexEntry) -> Result<DirEntry, NoMemory>
    ensures { IfOk result (λ line. line ≡ line_of_index index.now) }
{
    let public = &index.public;
    Ok(DirEntry {
        path: index.path.clone()?,
        handle: public.index,
        name: nv_name_once_written(public),
        attributes: public.attributes,
    })
}
