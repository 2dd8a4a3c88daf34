//! What handles stand for, and their Names.

ghost use Rattle.std.specs.Prelude.{◌≡◌, ◌≤◌, option_map};
ghost use Rattle.tpm_rules.specs.EntityView.{entity_of};
ghost use Rattle.tpm_rules.specs.Rule.{Obeys};
ghost use Rattle.tpm_world.specs.Entities as spec;

use crate::World;
use tpm_rules::{Entity, unless};
use tpol_base::response_code::{HANDLE, of_handle, reference_of_handle};
use tpol_base::{HandleKind, Name, Rc};
use tpol_name::nv_name;

impl World {
    /// What may be authorized by this handle: a hierarchy, a PCR, an object or an index; `None` exactly where
    /// there is none with it.
    pub fn entity(&self, handle: u32) -> Option<Entity<'_>>
        ensures entity { option_map entity_of result ≡ spec.entity_at self.now handle }
    {
        match HandleKind::of(handle)? {
            HandleKind::Pcr => Some(Entity::Pcr),
            HandleKind::Index => Some(Entity::Index(self.index(handle)?)),
            HandleKind::Object => Some(Entity::Object(self.object(handle)?)),
            HandleKind::Permanent => self.hierarchy(handle),
            HandleKind::PolicySession => None,
        }
    }

    /// The Name of an object, or of an index as it is now; of every other handle its four bytes
    /// (TPM 2.0 Part 1, "Names").
    pub fn name_of(&self, handle: u32) -> Name
        ensures name { result ≡ spec.name_at self.now handle }
    {
        let name = match HandleKind::of(handle) {
            Some(HandleKind::Object) => self.object_name_of(handle),
            Some(HandleKind::Index) => self.index(handle).map(|index| nv_name(&index.public)),
            _ => None,
        };
        name.unwrap_or(Name::Handle(handle))
    }

    /// That handle `n` of a command, from 1, is no index and no object that is not there: TPM_RC_HANDLE of the
    /// handle for an index, TPM_RC_REFERENCE_H0 and on for an object. Of sessions it says nothing.
    pub fn handle_rule(&self, n: u8, handle: u32) -> Result<(), Rc>
        requires position { 1 ≤ n }
        ensures rule { Obeys result (spec.handle_rule self.now n handle) }
    {
        match HandleKind::of(handle) {
            Some(HandleKind::Index) => unless(self.index(handle).is_some(), HANDLE + of_handle(n)),
            Some(HandleKind::Object) => unless(
                self.object(handle).is_some(),
                reference_of_handle(n),
            ),
            _ => Ok(()),
        }
    }
}
