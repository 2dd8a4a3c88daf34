//! The entities that Names stand for, and the Names of handles.

ghost use Rattle.std.specs.Prelude.{◌≡◌, option_map};
ghost use Rattle.std.specs.Option.{option_copied};
ghost use Rattle.tpol_name.specs.Directories.{line_of_index, line_of_object, lines_of};
ghost use Rattle.tpol_name.specs.Setups.{IsSight};
ghost use Rattle.tpol_goal.specs.Entities.{entity_in_sight, entity_of_name, hierarchy_of_name, index_in_sight, index_of_handle, index_of_name, line_of_name, name_in_sight, name_of_handle, object_in_sight, object_of_handle, object_of_name};

use tpol_base::Name;
use tpol_base::handle::{HandleKind, TPM_RH_ENDORSEMENT, TPM_RH_LOCKOUT, TPM_RH_OWNER};
use tpol_name::{DirEntry, IndexEntry, ObjectEntry, Sight, nv_name, object_name};

/// The handle of the entity that a Name stands for where a command takes a hierarchy, an object or an index:
/// the hierarchy whose handle the Name is, else the first line of the directory with the Name; `None` where
/// there is neither.
pub fn entity_of_name(directory: &[DirEntry], name: &Name) -> Option<u32>
    ensures entity { result ≡ entity_of_name directory.now name.now }
{
    if let Some(handle) = hierarchy_of_name(name) {
        return Some(handle);
    }
    match line_of_name(directory, name) {
        Some(entry) => Some(entry.handle),
        None => None,
    }
}

fn line_of_name<'a>(directory: &'a [DirEntry], name: &Name) -> Option<&'a DirEntry>
    ensures { option_copied result ≡ line_of_name directory.now name.now }
{
    directory.iter().find(|entry| entry.name == *name)
}

/// The first object of the directory with this Name; `None` for the Name of a hierarchy too.
pub fn object_of_name<'a>(directory: &'a [DirEntry], name: &Name) -> Option<&'a DirEntry>
    ensures object { option_copied result ≡ object_of_name directory.now name.now }
{
    directory.iter().find(|entry| HandleKind::of(entry.handle) == Some(HandleKind::Object)
        && entry.name == *name)
}

/// The first index of the directory with this Name, which is that of the written index.
pub fn index_of_name<'a>(directory: &'a [DirEntry], name: &Name) -> Option<&'a DirEntry>
    ensures index { option_copied result ≡ index_of_name directory.now name.now }
{
    directory.iter().find(|entry| HandleKind::of(entry.handle) == Some(HandleKind::Index)
        && entry.name == *name)
}

/// The Name of a handle: that of the first line of the directory with the handle, else the handle's four
/// bytes.
pub fn name_of_handle(directory: &[DirEntry], handle: u32) -> Name
    ensures name { result ≡ name_of_handle directory.now handle }
{
    match directory.iter().find(|entry| entry.handle == handle) {
        Some(entry) => entry.name,
        None => Name::Handle(handle),
    }
}

/// The same as `entity_of_name` for the directory of what a sight shows. No memory is taken.
pub fn entity_in_sight(sight: &Sight, name: &Name) -> Option<u32>
    ensures entity { result ≡ entity_in_sight sight.now name.now }
    ensures directory { result
        ≡ entity_of_name (lines_of sight.now.objects sight.now.indices) name.now }
{
    find_entity(sight, name)
}

/// The first object of a sight with this Name; `None` for the Name of a hierarchy too. It is that of the
/// directory.
pub fn object_in_sight<'a>(sight: &'a Sight, name: &Name) -> Option<&'a ObjectEntry>
    ensures object { option_copied result ≡ object_in_sight sight.now name.now }
    ensures directory { IsSight sight.now → option_map line_of_object (option_copied result)
        ≡ object_of_name (lines_of sight.now.objects sight.now.indices) name.now }
{
    find_object(sight, name)
}

/// The first index of a sight that has this Name once it is written. It is that of the directory.
pub fn index_in_sight<'a>(sight: &'a Sight, name: &Name) -> Option<&'a IndexEntry>
    ensures index { option_copied result ≡ index_in_sight sight.now name.now }
    ensures directory { IsSight sight.now → option_map line_of_index (option_copied result)
        ≡ index_of_name (lines_of sight.now.objects sight.now.indices) name.now }
{
    find_index(sight, name)
}

fn find_entity(sight: &Sight, name: &Name) -> Option<u32>
    ensures { result ≡ entity_in_sight sight.now name.now }
{
    if let Some(handle) = hierarchy_of_name(name) {
        return Some(handle);
    }
    if let Some(object) = find_object(sight, name) {
        return Some(object.handle);
    }
    match find_index(sight, name) {
        Some(index) => Some(index.public.index),
        None => None,
    }
}

fn find_object<'a>(sight: &'a Sight, name: &Name) -> Option<&'a ObjectEntry>
    ensures { option_copied result ≡ object_in_sight sight.now name.now }
{
    sight.objects.find(name)
}

fn find_index<'a>(sight: &'a Sight, name: &Name) -> Option<&'a IndexEntry>
    ensures { option_copied result ≡ index_in_sight sight.now name.now }
{
    sight.indices.find(name)
}

/// The handle of the hierarchy that a Name stands for: the owner's, the endorsement's or the lockout's, whose
/// Name its handle is.
pub fn hierarchy_of_name(name: &Name) -> Option<u32>
    ensures { result ≡ hierarchy_of_name name.now }
{
    match name {
        Name::Handle(handle) => match *handle {
            TPM_RH_OWNER | TPM_RH_ENDORSEMENT | TPM_RH_LOCKOUT => Some(*handle),
            _ => None,
        },
        Name::Empty | Name::Hash(_) => None,
    }
}

/// The first object of a sight with this handle.
pub fn object_of_handle(sight: &Sight, handle: u32) -> Option<&ObjectEntry>
    ensures object { option_copied result ≡ object_of_handle sight.now handle }
{
    sight
        .objects
        .as_slice()
        .iter()
        .find(|object| object.handle == handle)
}

/// The first index of a sight with this handle.
pub fn index_of_handle(sight: &Sight, handle: u32) -> Option<&IndexEntry>
    ensures index { option_copied result ≡ index_of_handle sight.now handle }
{
    sight
        .indices
        .as_slice()
        .iter()
        .find(|index| index.public.index == handle)
}

/// The Name of a handle as its entity is in a sight: of an object, of an index as it is now, and of every other
/// handle its four bytes.
pub fn name_in_sight(sight: &Sight, handle: u32) -> Name
    ensures name { result ≡ name_in_sight sight.now handle }
{
    if let Some(object) = object_of_handle(sight, handle) {
        return object_name(&object.public);
    }
    match index_of_handle(sight, handle) {
        Some(index) => nv_name(&index.public),
        None => Name::Handle(handle),
    }
}
