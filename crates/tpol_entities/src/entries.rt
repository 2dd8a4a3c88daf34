//! What stands in an entity behind its heading.

ghost use Rattle.std.specs.Prelude.{◌≡◌, [], codes, IfErr, IfOk, None};
ghost use Rattle.serde_json.specs.View.{view};
ghost use Rattle.tpol_json.specs.declared.fault.Fault.TheVariants.{NoMemory as no_memory};
ghost use Rattle.tpol_entities.specs.Entities.{GivesIndexRest, GivesObjectRest, attributes_with, content_in, content_or_zeros, index_and_policy_in, index_attributes_in, index_size_in, index_with, object_and_policy_in, object_with};
ghost use Rattle.tpol_json.specs.Reading.{Gives};
ghost use Rattle.tpol_json.specs.Members.{optional};
ghost use Rattle.tpol_entities.specs.Members.{needed};
ghost use Rattle.tpol_entities.specs.Values.{empty_or_32};

use crate::SceneKind;
use crate::fault::PartFault;
use crate::heading::{Heading, NamedPolicy, PolicySource};
use crate::members::{needed_bytes, optional_u32};
use serde_json::Value;
use std::alloc::Global;
use tpol_base::Blob;
use tpol_base::attributes::{
    NV_WRITTEN, has_attribute, index_type, is_index_type, is_size_of_type,
};
use tpol_json::{PlaceRef, any_bytes, empty_or_32, member, needed, refuse, unsigned, unsigned_32};
use tpol_name::{IndexEntry, NvPublic, ObjectEntry, ObjectPublic, Scheme};

/// The most bytes of an object's secret.
const MAX_SECRET: usize = 128;

/// The most bytes of an index's content.
const MAX_CONTENT: u64 = 2048;

/// What stands in an object behind its heading.
pub struct ObjectRest {
    pub attributes: u32,
    pub secret: Blob,
    pub unique: Blob,
}

/// What stands in an index behind its heading.
pub struct IndexRest {
    pub attributes: u32,
    pub size: u16,
    pub content: Blob,
}

/// Reads what stands in an object behind its heading. `default` are the attributes of one that gives none.
/// The policy that it names, if any, is handed back.
pub fn read_object(
    alloc: Global,
    scheme: Scheme,
    default: u32,
    heading: Heading,
    item: &Value,
    place: &PlaceRef<'_>,
) -> Result<(ObjectEntry, Option<NamedPolicy>), PartFault>
    ensures { Gives result (object_and_policy_in scheme default heading (view item.now) place.now) }
{
    match object_rest(alloc, default, item, place) {
        Ok(rest) => Ok(object_with(scheme, heading, rest)),
        Err(fault) => {
            drop(heading);
            Err(fault)
        }
    }
}

// The object, and the policy that its heading names.
fn object_with(
    scheme: Scheme,
    heading: Heading,
    rest: ObjectRest,
) -> (ObjectEntry, Option<NamedPolicy>)
    ensures { result ≡ (object_with scheme heading rest, heading.policy.named) }
{
    let Heading {
        kind: _,
        path,
        handle,
        auth,
        policy: PolicySource { auth_policy, named },
    } = heading;
    let ObjectRest {
        attributes,
        secret,
        unique,
    } = rest;
    let public = ObjectPublic {
        attributes,
        auth_policy,
        scheme,
        unique,
    };
    let object = ObjectEntry {
        path,
        handle,
        public,
        auth,
        secret,
    };
    (object, named)
}

// The attributes, the secret and the unique field.
#[tactic(auto, unfolding(crate::specs::Entities::object_entry_in))]
fn object_rest(
    alloc: Global,
    default: u32,
    item: &Value,
    place: &PlaceRef<'_>,
) -> Result<ObjectRest, PartFault>
    ensures { GivesObjectRest default result (view item.now) place.now }
{
    let attributes = optional_u32(alloc, item, "attributes", default, place)?;
    let secret = needed_bytes(alloc, item, "secret", MAX_SECRET, place)?;
    let unique = optional_unique(alloc, item, place)?;
    Ok(ObjectRest {
        attributes,
        secret,
        unique,
    })
}

// The unique field: 32 bytes, or none, also without the member.
fn optional_unique(alloc: Global, item: &Value, place: &PlaceRef<'_>) -> Result<Blob, PartFault>
    ensures { Gives result (optional empty_or_32 [] (codes "unique") (view item.now) place.now) }
{
    match member(item, "unique") {
        Some(unique) => {
            empty_or_32(alloc, unique, &place.member("unique")).map_err(PartFault::from)
        }
        None => Ok(Blob::new(alloc)),
    }
}

/// Reads what stands in an index behind its heading. The policy that it names, if any, is handed back.
pub fn read_index(
    alloc: Global,
    heading: Heading,
    item: &Value,
    place: &PlaceRef<'_>,
) -> Result<(IndexEntry, Option<NamedPolicy>), PartFault>
    ensures { Gives result (index_and_policy_in heading (view item.now) place.now) }
{
    match index_rest(alloc, item, place) {
        Ok(rest) => Ok(index_with(heading, rest)),
        Err(fault) => {
            drop(heading);
            Err(fault)
        }
    }
}

// The index, and the policy that its heading names.
fn index_with(heading: Heading, rest: IndexRest) -> (IndexEntry, Option<NamedPolicy>)
    ensures { result ≡ (index_with heading rest, heading.policy.named) }
{
    let Heading {
        kind: _,
        path,
        handle,
        auth,
        policy: PolicySource { auth_policy, named },
    } = heading;
    let IndexRest {
        attributes,
        size,
        content,
    } = rest;
    let public = NvPublic {
        index: handle,
        attributes,
        auth_policy,
        size,
    };
    let index = IndexEntry {
        path,
        public,
        auth,
        content,
    };
    (index, named)
}

// The attributes, the size and the content, which is zero bytes where the scene gives none.
#[tactic(auto, unfolding(crate::specs::Entities::index_entry_in))]
fn index_rest(alloc: Global, item: &Value, place: &PlaceRef<'_>) -> Result<IndexRest, PartFault>
    ensures { GivesIndexRest result (view item.now) place.now }
{
    let attributes = needed_attributes(alloc, item, place)?;
    let size = needed_size(alloc, attributes, item, place)?;
    let content = optional_content(alloc, size, item, place)?;
    let attributes = attributes_with(&content, attributes);
    let content = content_or_zeros(alloc, content, size)?;
    Ok(IndexRest {
        attributes,
        size,
        content,
    })
}

fn needed_attributes(alloc: Global, item: &Value, place: &PlaceRef<'_>) -> Result<u32, PartFault>
    ensures { Gives result
        (needed index_attributes_in (codes "attributes") (view item.now) place.now) }
{
    let (attributes, place) = needed(alloc, item, "attributes", place)?;
    index_attributes(alloc, attributes, &place)
}

// The attributes of an index: without WRITTEN, and of a type that a scene can have.
#[tactic(auto, unfolding(crate::specs::Entities::index_attributes_in))]
fn index_attributes(alloc: Global, value: &Value, place: &PlaceRef<'_>) -> Result<u32, PartFault>
    ensures { Gives result (index_attributes_in (view value.now) place.now) }
{
    let attributes = unsigned_32(alloc, value, place)?;
    if !has_attribute(attributes, NV_WRITTEN) && is_index_type(index_type(attributes)) {
        Ok(attributes)
    } else {
        refuse(alloc, SceneKind::BadState, place)
    }
}

fn needed_size(
    alloc: Global,
    attributes: u32,
    item: &Value,
    place: &PlaceRef<'_>,
) -> Result<u16, PartFault>
    ensures { Gives result
        (needed (index_size_in attributes) (codes "size") (view item.now) place.now) }
{
    let (size, place) = needed(alloc, item, "size", place)?;
    index_size(alloc, attributes, size, &place)
}

// 1 to 2,048 bytes, as many as the type asks for.
fn index_size(
    alloc: Global,
    attributes: u32,
    value: &Value,
    place: &PlaceRef<'_>,
) -> Result<u16, PartFault>
    ensures { Gives result (index_size_in attributes (view value.now) place.now) }
{
    let size = unsigned(alloc, value, 1, MAX_CONTENT, place)? as u16;
    if is_size_of_type(index_type(attributes), size) {
        Ok(size)
    } else {
        refuse(alloc, SceneKind::BadState, place)
    }
}

// A content of this size.
fn optional_content(
    alloc: Global,
    size: u16,
    item: &Value,
    place: &PlaceRef<'_>,
) -> Result<Option<Blob>, PartFault>
    ensures { Gives result
        (optional (content_in size) None (codes "content") (view item.now) place.now) }
{
    let Some(content) = member(item, "content") else {
        return Ok(None);
    };
    let place = place.member("content");
    let content = any_bytes(alloc, content, &place)?;
    if content.len() == size as usize {
        Ok(Some(content))
    } else {
        refuse(alloc, SceneKind::BadState, &place)
    }
}

// With a content WRITTEN is set.
fn attributes_with(content: &Option<Blob>, attributes: u32) -> u32
    ensures { result ≡ attributes_with content.now attributes }
{
    match content {
        Some(_) => attributes | NV_WRITTEN,
        None => attributes,
    }
}

// The content that is given, or zero bytes.
fn content_or_zeros(alloc: Global, content: Option<Blob>, size: u16) -> Result<Blob, PartFault>
    ensures ok { IfOk result (λ bytes. bytes ≡ content_or_zeros content size) }
    ensures err { IfErr result (λ fault. fault ≡ no_memory) }
{
    match content {
        Some(content) => Ok(content),
        None => Ok(Blob::from_vec(vec![in alloc; 0; size as usize]?)),
    }
}
