//! The entities of a scene.

ghost use Rattle.std.specs.Prelude.{◌≡◌, codes, OnOk};
ghost use Rattle.serde_json.specs.View.{view};
ghost use Rattle.tpol_entities.specs.Entities.{entities_in, entity_by, index_behind, no_entities, object_behind, policies_with};
ghost use Rattle.tpol_entities.specs.Faults.{Leaves};
ghost use Rattle.tpol_json.specs.Reading.{Gives};
ghost use Rattle.tpol_json.specs.Members.{optional};

use crate::entries::{read_index, read_object};
use crate::fault::PartFault;
use crate::heading::{Heading, NamedPolicy, read_heading};
use crate::kinds::EntityKind;
use crate::lists::{ItemReader, optional_list};
use serde_json::Value;
use std::alloc::Global;
use tpol_base::attributes::{OBJECT_SIGN, OBJECT_USER_WITH_AUTH};
use tpol_base::{NoMemory, Sequence, Text};
use tpol_json::{Place, PlaceRef, check_limit};
use tpol_name::{Indices, Objects, Scheme};

/// The most entities of a scene.
const ENTITIES: usize = 256;

/// An entity whose authorization policy is named: its handle, how many objects and how many indices of the
/// scene stand before it, the policy's name without `/policy/` in front, and where the name stands.
#[derive(Drop)]
pub struct EntityPolicy {
    pub handle: u32,
    pub objects_before: usize,
    pub indices_before: usize,
    pub name: Text,
    pub place: Place,
}

/// The entities whose authorization policy is named, in the order of the scene.
pub type EntityPolicies = Sequence<EntityPolicy>;

/// The entities of a scene, each kind in the order of the scene.
#[derive(Drop)]
pub struct Entities {
    pub objects: Objects,
    pub indices: Indices,
    pub policies: EntityPolicies,
}

/// The member `entities`: a list of at most 256 entities, without it none; one past them is `TooMany`. An item is an
/// object with `kind`, `path`, `handle`, `auth`, and `authPolicy` or `policy`, and behind them `attributes`, `secret`
/// and `unique` of a sealed secret or an HMAC key, and `attributes`, `size` and `content` of an NV index. Left out may
/// be `auth`, `authPolicy`, `policy`, `unique`, `content`, and the `attributes` of a secret or a key.
/// `Missing`, `WrongKind`, `BadHex` and `BadNumber` stand at the value at fault or missing, `UnknownKind` at a `kind`
/// that no entity has, `Twice` at a path that a hierarchy or an entity before has, at a handle that an entity before
/// has, and at a `policy` beside `authPolicy`; `BadState` stands at attributes, a size or a content that no index
/// has. The first fault in reading order is told.
pub fn optional_entities(
    alloc: Global,
    value: &Value,
    place: &PlaceRef<'_>,
) -> Result<Entities, PartFault>
    ensures { Gives result
        (optional entities_in no_entities (codes "entities") (view value.now) place.now) }
{
    let start = no_entities(alloc);
    optional_list(alloc, &EntityReader, start, value, "entities", place)
}

fn no_entities(alloc: Global) -> Entities
    ensures { result ≡ no_entities }
{
    Entities {
        objects: Sequence::new(alloc),
        indices: Sequence::new(alloc),
        policies: Sequence::new(alloc),
    }
}

// Reads entities, each beside those before it.
#[derive(Clone, Copy)]
struct EntityReader;

impl ItemReader<Entities> for EntityReader {
    ghost use Rattle.tpol_entities.specs.Entities.{entity_in};

    ghost reading = { λ _. entity_in };

    #[tactic(auto, unfolding(crate::specs::Entities::entity_in))]
    fn read_item(
        &self,
        alloc: Global,
        entities: &mut Entities,
        index: usize,
        item: &Value,
        place: &PlaceRef<'_>,
    ) -> Result<(), PartFault> {
        check_limit(alloc, index, ENTITIES, place)?;
        let heading = read_heading(alloc, entities, item, place)?;
        add_entity(alloc, entities, heading, item, place)
    }
}

#[tactic(auto, unfolding(crate::specs::Entities::entity_by))]
fn add_entity(
    alloc: Global,
    entities: &mut Entities,
    heading: Heading,
    item: &Value,
    place: &PlaceRef<'_>,
) -> Result<(), PartFault>
    ensures { Leaves result entities.new
        (entity_by heading.kind entities.old heading (view item.now) place.now) }
{
    match heading.kind {
        EntityKind::Seal => {
            let default = OBJECT_USER_WITH_AUTH;
            add_object(
                alloc,
                entities,
                Scheme::Sealed,
                default,
                heading,
                item,
                place,
            )
        }
        EntityKind::Key => {
            let default = OBJECT_USER_WITH_AUTH + OBJECT_SIGN;
            add_object(
                alloc,
                entities,
                Scheme::HmacKey,
                default,
                heading,
                item,
                place,
            )
        }
        EntityKind::Nv => add_index(alloc, entities, heading, item, place),
    }
}

fn add_object(
    alloc: Global,
    entities: &mut Entities,
    scheme: Scheme,
    default: u32,
    heading: Heading,
    item: &Value,
    place: &PlaceRef<'_>,
) -> Result<(), PartFault>
    ensures { Leaves result entities.new
        (object_behind entities.old scheme default heading (view item.now) place.now) }
{
    let (object, named) = read_object(alloc, scheme, default, heading, item, place)?;
    match add_policy(entities, object.handle, named) {
        Ok(()) => entities.objects.push(object).map_err(PartFault::from),
        Err(NoMemory) => {
            drop(object);
            Err(PartFault::NoMemory)
        }
    }
}

fn add_index(
    alloc: Global,
    entities: &mut Entities,
    heading: Heading,
    item: &Value,
    place: &PlaceRef<'_>,
) -> Result<(), PartFault>
    ensures { Leaves result entities.new
        (index_behind entities.old heading (view item.now) place.now) }
{
    let (index, named) = read_index(alloc, heading, item, place)?;
    match add_policy(entities, index.public.index, named) {
        Ok(()) => entities.indices.push(index).map_err(PartFault::from),
        Err(NoMemory) => {
            drop(index);
            Err(PartFault::NoMemory)
        }
    }
}

// Adds the policy that the next entity names.
fn add_policy(
    entities: &mut Entities,
    handle: u32,
    named: Option<NamedPolicy>,
) -> Result<(), NoMemory>
    ensures policies { OnOk result (entities.new.policies
        ≡ policies_with entities.old handle named) }
    ensures objects { entities.new.objects ≡ entities.old.objects }
    ensures indices { entities.new.indices ≡ entities.old.indices }
{
    match named {
        None => Ok(()),
        Some(NamedPolicy { name, place }) => entities.policies.push(EntityPolicy {
            handle,
            objects_before: entities.objects.len(),
            indices_before: entities.indices.len(),
            name,
            place,
        }),
    }
}
