//! What entities of every kind have.

ghost use Rattle.std.specs.Prelude.{◌≡◌, ◌==◌, codes, None};
ghost use Rattle.std.specs.List.{list_any};
ghost use Rattle.serde_json.specs.Find.{get};
ghost use Rattle.serde_json.specs.View.{view};
ghost use Rattle.tpol_entities.specs.Entities.{bytes_or_name, has_handle, has_path, heading_in, named_policy_in, new_handle_in, new_path_in, policy_name_in, policy_source_in, some_policy_in};
ghost use Rattle.tpol_json.specs.Reading.{Gives};
ghost use Rattle.tpol_entities.specs.Kinds.{kind_in};
ghost use Rattle.tpol_json.specs.Members.{optional};
ghost use Rattle.tpol_entities.specs.Members.{needed};

use crate::SceneKind;
use crate::entities::Entities;
use crate::fault::PartFault;
use crate::kinds::{EntityKind, kind_of};
use crate::members::optional_auth;
use serde_json::Value;
use std::alloc::Global;
use tpol_base::{Blob, Text, without_folder};
use tpol_json::{
    Place, PlaceRef, check_object, empty_or_32, member, needed, refuse, text, unsigned,
};
use tpol_name::{IndexEntry, ObjectEntry, hierarchy_at, index_at, object_at};

/// A policy by its name, and where the name stands.
#[derive(Drop)]
pub struct NamedPolicy {
    pub name: Text,
    pub place: Place,
}

/// Where an entity's authorization policy comes from: its digest, or nothing, and the policy that it names.
#[derive(Drop)]
pub struct PolicySource {
    pub auth_policy: Blob,
    pub named: Option<NamedPolicy>,
}

/// What entities of every kind have.
#[derive(Drop)]
pub struct Heading {
    pub kind: EntityKind,
    pub path: Text,
    pub handle: u32,
    pub auth: Blob,
    pub policy: PolicySource,
}

/// Reads what entities of every kind have, beside the entities before.
#[tactic(auto, unfolding(crate::specs::Entities::heading_in))]
pub fn read_heading(
    alloc: Global,
    entities: &Entities,
    item: &Value,
    place: &PlaceRef<'_>,
) -> Result<Heading, PartFault>
    ensures { Gives result (heading_in entities.now (view item.now) place.now) }
{
    check_object(alloc, item, place)?;
    let kind = needed_kind(alloc, item, place)?;
    let path = needed_path(alloc, entities, item, place)?;
    let handle = needed_handle(alloc, entities, kind, item, place)?;
    let auth = optional_auth(alloc, item, "auth", place)?;
    let policy = policy_source(alloc, item, place)?;
    Ok(Heading {
        kind,
        path,
        handle,
        auth,
        policy,
    })
}

fn needed_kind(alloc: Global, item: &Value, place: &PlaceRef<'_>) -> Result<EntityKind, PartFault>
    ensures { Gives result (needed kind_in (codes "kind") (view item.now) place.now) }
{
    let (kind, place) = needed(alloc, item, "kind", place)?;
    kind_of(alloc, kind, &place)
}

fn needed_path(
    alloc: Global,
    entities: &Entities,
    item: &Value,
    place: &PlaceRef<'_>,
) -> Result<Text, PartFault>
    ensures { Gives result
        (needed (new_path_in entities.now) (codes "path") (view item.now) place.now) }
{
    let (path, place) = needed(alloc, item, "path", place)?;
    new_path(alloc, entities, path, &place)
}

fn new_path(
    alloc: Global,
    entities: &Entities,
    value: &Value,
    place: &PlaceRef<'_>,
) -> Result<Text, PartFault>
    ensures { Gives result (new_path_in entities.now (view value.now) place.now) }
{
    let path = text(alloc, value, place)?;
    if has_path(entities, path.as_str()) {
        refuse(alloc, SceneKind::Twice, place)
    } else {
        Ok(path)
    }
}

// Whether a hierarchy or an entity has this path.
#[tactic(auto, unfolding(crate::specs::Entities::has_path))]
fn has_path(entities: &Entities, path: &str) -> bool
    ensures { result ≡ has_path entities.now path.now }
{
    hierarchy_at(path).is_some()
        || object_at(entities.objects.as_slice(), path).is_some()
        || index_at(entities.indices.as_slice(), path).is_some()
}

fn needed_handle(
    alloc: Global,
    entities: &Entities,
    kind: EntityKind,
    item: &Value,
    place: &PlaceRef<'_>,
) -> Result<u32, PartFault>
    ensures { Gives result
        (needed (new_handle_in entities.now kind) (codes "handle") (view item.now) place.now) }
{
    let (handle, place) = needed(alloc, item, "handle", place)?;
    new_handle(alloc, entities, kind, handle, &place)
}

fn new_handle(
    alloc: Global,
    entities: &Entities,
    kind: EntityKind,
    value: &Value,
    place: &PlaceRef<'_>,
) -> Result<u32, PartFault>
    ensures { Gives result (new_handle_in entities.now kind (view value.now) place.now) }
{
    let least = kind.least_handle();
    let greatest = kind.greatest_handle();
    let handle = unsigned(alloc, value, least, greatest, place)? as u32;
    if has_handle(entities, kind, handle) {
        refuse(alloc, SceneKind::Twice, place)
    } else {
        Ok(handle)
    }
}

// Whether an entity of the kind has this handle.
#[tactic(auto, unfolding(crate::specs::Entities::has_handle))]
fn has_handle(entities: &Entities, kind: EntityKind, handle: u32) -> bool
    ensures { result ≡ has_handle entities.now kind handle }
{
    match kind {
        EntityKind::Seal | EntityKind::Key => {
            has_object_handle(entities.objects.as_slice(), handle)
        }
        EntityKind::Nv => has_index_handle(entities.indices.as_slice(), handle),
    }
}

fn has_object_handle(objects: &[ObjectEntry], handle: u32) -> bool
    ensures { result ≡ list_any (λ object. object.handle == handle) objects.now }
{
    objects.iter().any(|object| object.handle == handle)
}

fn has_index_handle(indices: &[IndexEntry], handle: u32) -> bool
    ensures { result ≡ list_any (λ index. index.public.index == handle) indices.now }
{
    indices.iter().any(|index| index.public.index == handle)
}

// At most one of `authPolicy` and `policy`.
#[tactic(auto, unfolding(crate::specs::Entities::policy_source_in))]
fn policy_source(
    alloc: Global,
    item: &Value,
    place: &PlaceRef<'_>,
) -> Result<PolicySource, PartFault>
    ensures { Gives result (policy_source_in (view item.now) place.now) }
{
    let bytes = optional_auth_policy(alloc, item, place)?;
    bytes_or_name(alloc, bytes, item, &place.member("policy"))
}

fn optional_auth_policy(
    alloc: Global,
    item: &Value,
    place: &PlaceRef<'_>,
) -> Result<Option<Blob>, PartFault>
    ensures { Gives result
        (optional some_policy_in None (codes "authPolicy") (view item.now) place.now) }
{
    match member(item, "authPolicy") {
        Some(bytes) => Ok(Some(empty_or_32(alloc, bytes, &place.member("authPolicy"))?)),
        None => Ok(None),
    }
}

fn bytes_or_name(
    alloc: Global,
    bytes: Option<Blob>,
    item: &Value,
    place: &PlaceRef<'_>,
) -> Result<PolicySource, PartFault>
    ensures { Gives result (bytes_or_name bytes (get (codes "policy") (view item.now)) place.now) }
{
    match member(item, "policy") {
        None => Ok(PolicySource {
            auth_policy: bytes.unwrap_or(Blob::new(alloc)),
            named: None,
        }),
        Some(policy) => match bytes {
            None => named_policy(alloc, policy, place),
            Some(_) => refuse(alloc, SceneKind::Twice, place),
        },
    }
}

fn named_policy(
    alloc: Global,
    value: &Value,
    place: &PlaceRef<'_>,
) -> Result<PolicySource, PartFault>
    ensures { Gives result (named_policy_in (view value.now) place.now) }
{
    let named = policy_name(alloc, value, place)?;
    Ok(PolicySource {
        auth_policy: Blob::new(alloc),
        named: Some(named),
    })
}

/// A policy by its name, without `/policy/` in front, and where it stands. A value of another kind than a text is
/// `WrongKind` there.
pub fn policy_name(
    alloc: Global,
    value: &Value,
    place: &PlaceRef<'_>,
) -> Result<NamedPolicy, PartFault>
    ensures { Gives result (policy_name_in (view value.now) place.now) }
{
    let text = text(alloc, value, place)?;
    Ok(NamedPolicy {
        name: Text::from_str(alloc, without_folder(text.as_str()))?,
        place: place.to_place(alloc)?,
    })
}
