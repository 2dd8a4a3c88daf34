//! Which Name an entity has by its handle: in a directory, in a sight.

ghost use Rattle.std.specs.Prelude.{◌≡◌, ℕ};
ghost use Rattle.tpol_base.specs.declared.name.Name.{Name as OneName};
ghost use Rattle.tpol_goal.specs.Entities as entities;

use crate::{name_in_sight, name_of_handle};
use tpol_base::Name;
use tpol_name::{Directory, Sight};

/// What gives entities their Names by their handles.
pub trait Naming {
    /// The Name of each handle.
    ghost naming: { Self → ℕ → OneName };

    /// The Name of a handle.
    fn name_of(&self, handle: u32) -> Name
        ensures name { result ≡ naming self.now handle };
}

/// In a directory an index has the Name that it has once it is written.
impl Naming for Directory {
    ghost naming = { entities.name_of_handle };

    fn name_of(&self, handle: u32) -> Name {
        name_of_handle(self.as_slice(), handle)
    }
}

/// In a sight an index has the Name that it has now.
impl Naming for Sight {
    ghost naming = { entities.name_in_sight };

    fn name_of(&self, handle: u32) -> Name {
        name_in_sight(self, handle)
    }
}
