//! The entities that clients and goals name by their paths.

ghost use Rattle.std.specs.Prelude.{◌≡◌};
ghost use Rattle.serde_json.specs.View.{view};
ghost use Rattle.tpol_entities.specs.declared.targets.Target.TheVariants as targets;
ghost use Rattle.tpol_json.specs.Reading.{Gives};
ghost use Rattle.tpol_entities.specs.Members.{needed};
ghost use Rattle.tpol_entities.specs.Targets.{handle_at, index_handle_at, object_handle_at, target_in};

use crate::SceneKind;
use crate::entities::Entities;
use crate::fault::PartFault;
use serde_json::Value;
use std::alloc::Global;
use tpol_json::{PlaceRef, needed, refuse, text};
use tpol_name::{hierarchy_at, index_at, object_at};

/// What a path may name.
#[derive(Clone, Copy)]
pub enum Target {
    /// A hierarchy, an object or an index.
    Entity,
    /// An object.
    Object,
    /// An index.
    Index,
}

/// The handle of the entity that a member names by its path. Without the member it is `Missing`, a value of another
/// kind than a text is `WrongKind`, and a path that no such entity has is `NoSuchPath`, each at the member's place.
pub fn needed_target(
    alloc: Global,
    entities: &Entities,
    target: Target,
    value: &Value,
    name: &str,
    place: &PlaceRef<'_>,
) -> Result<u32, PartFault>
    ensures { Gives result (needed (target_in entities.now target) name.now
        (view value.now) place.now) }
{
    let (path, place) = needed(alloc, value, name, place)?;
    target_of(alloc, entities, target, path, &place)
}

/// The handle of the entity that a text names by its path. A value of another kind is `WrongKind` at its place, and a
/// path that no such entity has is `NoSuchPath` there.
pub fn target_of(
    alloc: Global,
    entities: &Entities,
    target: Target,
    value: &Value,
    place: &PlaceRef<'_>,
) -> Result<u32, PartFault>
    ensures { Gives result (target_in entities.now target (view value.now) place.now) }
{
    let path = text(alloc, value, place)?;
    match handle_at(entities, target, path.as_str()) {
        Some(handle) => Ok(handle),
        None => refuse(alloc, SceneKind::NoSuchPath, place),
    }
}

#[tactic(auto, unfolding(crate::specs::Targets::handle_at))]
fn handle_at(entities: &Entities, target: Target, path: &str) -> Option<u32>
    ensures { result ≡ handle_at entities.now target path.now }
{
    match target {
        Target::Entity => entity_at(entities, path),
        Target::Object => object_handle_at(entities, path),
        Target::Index => index_handle_at(entities, path),
    }
}

#[tactic(auto, unfolding(crate::specs::Targets::handle_at))]
fn entity_at(entities: &Entities, path: &str) -> Option<u32>
    ensures { result ≡ handle_at entities.now targets.Entity path.now }
{
    if let Some(hierarchy) = hierarchy_at(path) {
        return Some(hierarchy);
    }
    match object_handle_at(entities, path) {
        Some(object) => Some(object),
        None => index_handle_at(entities, path),
    }
}

fn object_handle_at(entities: &Entities, path: &str) -> Option<u32>
    ensures { result ≡ object_handle_at entities.now path.now }
{
    match object_at(entities.objects.as_slice(), path) {
        Some(object) => Some(object.handle),
        None => None,
    }
}

fn index_handle_at(entities: &Entities, path: &str) -> Option<u32>
    ensures { result ≡ index_handle_at entities.now path.now }
{
    match index_at(entities.indices.as_slice(), path) {
        Some(index) => Some(index.public.index),
        None => None,
    }
}
