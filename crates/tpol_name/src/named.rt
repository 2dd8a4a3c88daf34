//! Entities that are kept beside their Names.

ghost use Rattle.std.specs.Prelude.{◌≡◌, ℕ, List, IfOk, IfSome, find, length, map, position, slice_get};
ghost use Rattle.std.specs.Option.{option_copied, option_map};
ghost use Rattle.tpol_base.specs.Name.{is_same_name};
ghost use Rattle.tpol_base.specs.declared.name.Name.{Name as EntityName};
ghost use Rattle.tpol_name.specs.Areas.{index_name, object_name, with_written};
ghost use Rattle.tpol_name.specs.Paths.{is_same_path};

use crate::{IndexEntry, ObjectEntry, nv_name_once_written, object_name, same_path};
use std::alloc::Global;
use std::marker::Model;
use tpol_base::{Name, NoMemory, Sequence};

/// An entity with its path and the Name by which a directory lists it.
pub trait HasName: Drop {
    /// The path in the key store.
    ghost path_of: { Self → List ℕ };

    /// The Name.
    ghost name_of: { Self → EntityName };

    /// The path in the key store.
    fn path(&self) -> &str
        ensures path { result.now ≡ path_of self.now };

    /// The Name; it is hashed anew at each call.
    fn name(&self) -> Name
        ensures name { result ≡ name_of self.now };
}

/// An object has the Name of its public area.
impl HasName for ObjectEntry {
    ghost path_of = { λ object. object.path };

    ghost name_of = { λ object. object_name object.public };

    fn path(&self) -> &str {
        self.path.as_str()
    }

    fn name(&self) -> Name {
        object_name(&self.public)
    }
}

/// An index has the Name that it has once it is written.
impl HasName for IndexEntry {
    ghost path_of = { λ index. index.path };

    ghost name_of = { λ index. index_name (with_written index.public) };

    fn path(&self) -> &str {
        self.path.as_str()
    }

    fn name(&self) -> Name {
        nv_name_once_written(&self.public)
    }
}

/// A list of Names.
pub type Names = Sequence<Name>;

/// The Names of entities, in order.
pub fn names_of<T: HasName>(alloc: Global, entries: &[T]) -> Result<Names, NoMemory>
    ensures names { IfOk result (λ names. names ≡ map T.name_of entries.now) }
{
    let mut names = Sequence::new(alloc);
    for entry in entries {
        names.push(entry.name())?;
    }
    Ok(names)
}

/// A list of entities beside their Names, so that no Name is hashed when an entity is looked up by it; contracts
/// see the list of the entities.
#[derive(Drop)]
pub struct Named<T: HasName> {
    entries: Sequence<T>,
    names: Names,
}

/// A list of objects beside their Names.
pub type NamedObjects = Named<ObjectEntry>;

/// A list of indices beside the Names that they have once they are written.
pub type NamedIndices = Named<IndexEntry>;

impl<T: HasName> Model for Named<T> {
    ghost use Rattle.std.specs.Prelude.{◌≡◌, List, map};

    ghost Value = { List T };

    ghost view = { λ n. n.entries };

    ghost invariant = { λ n. n.names ≡ map T.name_of n.entries };
}

impl<T: HasName> Named<T> {
    /// These entities, each with its Name, which is hashed here, once.
    pub fn new(alloc: Global, entries: Sequence<T>) -> Result<Named<T>, NoMemory>
        ensures entries { IfOk result (λ named. named ≡ entries) }
    {
        let names = names_of(alloc, entries.as_slice())?;
        Ok(Named { entries, names })
    }

    /// These entities with their Names, which are known.
    pub fn with_names(entries: Sequence<T>, names: Names) -> Named<T>
        requires names { names ≡ map T.name_of entries }
        ensures entries { result ≡ entries }
    {
        Named { entries, names }
    }

    /// The number of entities.
    pub fn len(&self) -> usize
        ensures count { result ≡ length self.now }
    {
        self.entries.len()
    }

    /// The entities in order.
    pub fn as_slice(&self) -> &[T]
        ensures entries { result.now ≡ self.now }
    {
        self.entries.as_slice()
    }

    /// The first entity that has this Name.
    pub fn find(&self, name: &Name) -> Option<&T>
        ensures found { option_copied result
            ≡ find (λ entry. is_same_name (T.name_of entry) name.now) self.now }
    {
        match place_of(self.names.as_slice(), name) {
            Some(place) => self.entries.get(place),
            None => None,
        }
    }

    /// The first entity that has this path, and its Name, which is not hashed anew.
    pub fn at(&self, path: &str) -> Option<(&T, Name)>
        ensures entry { option_map (λ found. found.0.now) result
            ≡ find (λ entry. is_same_path (T.path_of entry) path.now) self.now }
        ensures name { IfSome result (λ found. found.1 ≡ T.name_of found.0.now) }
    {
        match place_at(self.entries.as_slice(), path) {
            Some(place) => self.entry(place),
            None => None,
        }
    }

    // The entity at this place, and its Name.
    fn entry(&self, place: usize) -> Option<(&T, Name)>
        ensures entry { option_map (λ found. found.0.now) result ≡ slice_get self.now place }
        ensures name { IfSome result (λ found. found.1 ≡ T.name_of found.0.now) }
    {
        match (self.entries.get(place), self.names.get(place)) {
            (Some(entry), Some(name)) => Some((entry, *name)),
            _ => None,
        }
    }
}

// Where the first of these entities stands that has this path.
fn place_at<T: HasName>(entries: &[T], path: &str) -> Option<usize>
    ensures { result ≡ position (λ entry. is_same_path (T.path_of entry) path.now) entries.now }
{
    entries
        .iter()
        .position(|entry| same_path(entry.path(), path))
}

// Where the first of these Names stands that is this one.
fn place_of(names: &[Name], name: &Name) -> Option<usize>
    ensures { result ≡ position (λ one. is_same_name one name.now) names.now }
{
    names.iter().position(|one| *one == *name)
}
