//! The objects of a machine by handle.

ghost use Rattle.std.specs.Prelude.{◌≡◌, nat_eq, map, is_some, slice_get, IfOk, IfSome};
ghost use Rattle.std.specs.Option.{option_copied};
ghost use Rattle.std.specs.List.{IsDistinct};
ghost use Rattle.tpm_world.specs.Objects.{object_of};

use indexmap::IndexMap;
use std::alloc::Global;
use std::marker::Model;
use tpol_base::{NoMemory, Sequence};
use tpol_name::{ObjectEntry, Objects};

/// The objects of a machine, found by handle; contracts see the list of them, in the order in which they were
/// given.
#[derive(Drop)]
pub struct ObjectTable {
    objects: IndexMap<u32, ObjectEntry>,
}

impl Model for ObjectTable {
    ghost use Rattle.std.specs.Prelude.{List};
    ghost use Rattle.indexmap.specs.IndexMap.{values};
    ghost use Rattle.tpol_name.specs.declared.entries.ObjectEntry.{ObjectEntry as OneObject};
    ghost use Rattle.tpm_world.specs.Objects.{IsByHandle};

    ghost Value = { List OneObject };

    ghost view = { λ t. values t.objects };

    ghost invariant = { λ t. IsByHandle t.objects.entries };
}

impl ObjectTable {
    /// The table of these objects, no two of which have one handle.
    pub fn new(alloc: Global, objects: Objects) -> Result<ObjectTable, NoMemory>
        requires handles { IsDistinct nat_eq (map (λ object. object.handle) objects) }
        ensures objects { IfOk result (λ table. table ≡ objects) }
    {
        let mut table = IndexMap::with_capacity(alloc, objects.len())?;
        for object in objects.into_vec() {
            drop(table.insert(object.handle, object)?);
        }
        Ok(ObjectTable { objects: table })
    }

    /// The object with this handle; `None` exactly where there is none.
    pub fn find(&self, handle: u32) -> Option<&ObjectEntry>
        ensures found { option_copied result ≡ object_of handle self.now }
    {
        self.objects.get(&handle)
    }

    /// The place in the list of the object with this handle, counted from 0; `None` exactly where there is none.
    pub fn place_of(&self, handle: u32) -> Option<usize>
        ensures found { is_some result ≡ is_some (object_of handle self.now) }
        ensures object { IfSome result (λ place. slice_get self.now place
            ≡ object_of handle self.now) }
    {
        self.objects.get_index_of(&handle)
    }

    /// A copy of all objects, in order.
    pub fn to_objects(&self, alloc: Global) -> Result<Objects, NoMemory>
        ensures copy { IfOk result (λ objects. objects ≡ self.now) }
    {
        let mut copies = Sequence::new(alloc);
        for object in self.objects.values() {
            copies.push(object.clone()?)?;
        }
        Ok(copies)
    }
}
