// The entities that a sight shows, with their handles and Names.

ghost use Rattle.std.specs.Prelude.{◌≡◌, option_map};
ghost use Rattle.tpm_rules.specs.EntityView.{entity_of};
ghost use Rattle.tpol_base.specs.Name.{is_same_name};
ghost use Rattle.tpol_choose.specs.Entities as spec;
ghost use Rattle.tpol_choose.specs.Lent.{entity_of_lent};

use tpm_rules::Entity;
use tpol_base::Name;
use tpol_base::handle::{TPM_RH_ENDORSEMENT, TPM_RH_OWNER};
use tpol_goal::{hierarchy_of_name, index_in_sight, object_in_sight};
use tpol_name::{IndexEntry, ObjectEntry, Sight, nv_name, nv_name_once_written, object_name};

// An entity that may be authorized, with its handle.
#[derive(Clone, Copy)]
pub struct EntityAt<'a> {
    pub handle: u32,
    pub entity: Entity<'a>,
}

impl<'a> EntityAt<'a> {
    pub fn of_hierarchy(sight: &'a Sight, handle: u32) -> EntityAt<'a>
        ensures { entity_of_lent result ≡ spec.hierarchy_at sight.now handle }
    {
        let value = match handle {
            TPM_RH_OWNER => &sight.owner,
            TPM_RH_ENDORSEMENT => &sight.endorsement,
            _ => &sight.lockout,
        };
        EntityAt {
            handle,
            entity: Entity::Hierarchy {
                handle,
                auth: value.as_slice(),
            },
        }
    }

    pub fn of_object(object: &'a ObjectEntry) -> EntityAt<'a>
        ensures { entity_of_lent result ≡ spec.object_at object.now }
    {
        EntityAt {
            handle: object.handle,
            entity: Entity::Object(object),
        }
    }

    pub fn of_index(index: &'a IndexEntry) -> EntityAt<'a>
        ensures { entity_of_lent result ≡ spec.index_at index.now }
    {
        EntityAt {
            handle: index.public.index,
            entity: Entity::Index(index),
        }
    }

    // The Name that it has as it is.
    pub fn name(&self) -> Name
        ensures { result ≡ spec.name_as_is self.now.handle (entity_of self.now.entity) }
    {
        match self.entity {
            Entity::Object(object) => object_name(&object.public),
            Entity::Index(index) => nv_name(&index.public),
            Entity::Hierarchy { .. } | Entity::Pcr => Name::Handle(self.handle),
        }
    }

    // The Name that a directory lists.
    pub fn name_in_directory(&self) -> Name
        ensures { result ≡ spec.name_in_directory self.now.handle (entity_of self.now.entity) }
    {
        match self.entity {
            Entity::Index(index) => nv_name_once_written(&index.public),
            Entity::Hierarchy { .. } | Entity::Pcr | Entity::Object(_) => self.name(),
        }
    }

    // Whether a directory lists the Name that it has as it is. No other one than that of an index differs.
    pub fn is_listed_as_is(&self) -> bool
        ensures { result ≡ is_same_name
            (spec.name_as_is self.now.handle (entity_of self.now.entity))
            (spec.name_in_directory self.now.handle (entity_of self.now.entity)) }
    {
        match self.entity {
            Entity::Index(_) => self.name() == self.name_in_directory(),
            Entity::Hierarchy { .. } | Entity::Pcr | Entity::Object(_) => true,
        }
    }
}

// What a Name stands for where a hierarchy, an object or an index may stand.
pub fn entity_of_name<'a>(sight: &'a Sight, name: &Name) -> Option<EntityAt<'a>>
    ensures { option_map entity_of_lent result ≡ spec.entity_of_name sight.now name.now }
{
    if let Some(handle) = hierarchy_of_name(name) {
        return Some(EntityAt::of_hierarchy(sight, handle));
    }
    if let Some(object) = object_in_sight(sight, name) {
        return Some(EntityAt::of_object(object));
    }
    match index_in_sight(sight, name) {
        Some(index) => Some(EntityAt::of_index(index)),
        None => None,
    }
}
