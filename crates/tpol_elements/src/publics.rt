//! Public areas of keys and of indices.

ghost use Rattle.serde_json.specs.View.{view};
ghost use Rattle.tpol_json.specs.Reading.{Gives};
ghost use Rattle.tpol_elements.specs.Publics.{key_type_member, name_hash_member, attributes_member, auth_policy_member, scheme_member, unique_member, nv_index_member, data_size_member, object_public, index_public, object_public_in, index_public_in, through};
ghost use Rattle.tpol_members.specs.Values.{unsigned_in};
ghost use Rattle.tpol_members.specs.Walks.{Leaves};

use serde_json::Value;
use std::alloc::Global;
use tpol_base::Blob;
use tpol_json::{PlaceRef, check_object, empty_or_32, member, needed, unsigned, unsigned_32};
use tpol_members::{ElementFault, Walk, check_hash, check_key_type, note_unknown, scheme};
use tpol_tree::{NvPublicText, ObjectPublicText};

#[tactic(auto, unfolding(crate::specs::Publics::key_type_member))]
fn key_type(alloc: Global, value: &Value, place: &PlaceRef<'_>) -> Result<(), ElementFault>
    ensures { Gives result (key_type_member (view value.now) place.now) }
{
    let (word, place) = needed(alloc, value, "type", place)?;
    check_key_type(alloc, word, &place)
}

#[tactic(auto, unfolding(crate::specs::Publics::name_hash_member))]
fn name_hash(alloc: Global, value: &Value, place: &PlaceRef<'_>) -> Result<(), ElementFault>
    ensures { Gives result (name_hash_member (view value.now) place.now) }
{
    let (word, place) = needed(alloc, value, "nameAlg", place)?;
    check_hash(alloc, word, &place)
}

// A number of 32 bits under this name.
#[tactic(auto, unfolding(crate::specs::Publics::attributes_member))]
fn attributes(
    alloc: Global,
    value: &Value,
    name: &str,
    place: &PlaceRef<'_>,
) -> Result<u32, ElementFault>
    ensures { Gives result (attributes_member name.now (view value.now) place.now) }
{
    let (number, place) = needed(alloc, value, name, place)?;
    Ok(unsigned_32(alloc, number, &place)?)
}

#[tactic(auto, unfolding(crate::specs::Publics::auth_policy_member))]
fn auth_policy(alloc: Global, value: &Value, place: &PlaceRef<'_>) -> Result<Blob, ElementFault>
    ensures { Gives result (auth_policy_member (view value.now) place.now) }
{
    match member(value, "authPolicy") {
        Some(bytes) => Ok(empty_or_32(alloc, bytes, &place.member("authPolicy"))?),
        None => Ok(Blob::new(alloc)),
    }
}

#[tactic(auto, unfolding(crate::specs::Publics::scheme_member))]
fn hmac(alloc: Global, value: &Value, place: &PlaceRef<'_>) -> Result<bool, ElementFault>
    ensures { Gives result (scheme_member (view value.now) place.now) }
{
    let (word, place) = needed(alloc, value, "scheme", place)?;
    scheme(alloc, word, &place)
}

#[tactic(auto, unfolding(crate::specs::Publics::unique_member))]
fn unique(alloc: Global, value: &Value, place: &PlaceRef<'_>) -> Result<Blob, ElementFault>
    ensures { Gives result (unique_member (view value.now) place.now) }
{
    let (bytes, place) = needed(alloc, value, "unique", place)?;
    Ok(empty_or_32(alloc, bytes, &place)?)
}

#[tactic(auto, unfolding(crate::specs::Publics::nv_index_member))]
fn nv_index(alloc: Global, value: &Value, place: &PlaceRef<'_>) -> Result<u32, ElementFault>
    ensures { Gives result (nv_index_member (view value.now) place.now) }
{
    let (number, place) = needed(alloc, value, "nvIndex", place)?;
    let index = unsigned(alloc, number, 0x01000000, 0x01ffffff, &place)?;
    Ok(index as u32)
}

// The size of an index: 1 to 2,048 bytes.
fn size(alloc: Global, value: &Value, place: &PlaceRef<'_>) -> Result<u16, ElementFault>
    ensures { Gives result (unsigned_in 1 2048 (view value.now) place.now) }
{
    Ok(unsigned(alloc, value, 1, 2048, place)? as u16)
}

#[tactic(auto, unfolding(crate::specs::Publics::data_size_member))]
fn data_size(alloc: Global, value: &Value, place: &PlaceRef<'_>) -> Result<u16, ElementFault>
    ensures { Gives result (data_size_member (view value.now) place.now) }
{
    let (number, place) = needed(alloc, value, "dataSize", place)?;
    size(alloc, number, &place)
}

#[tactic(auto, unfolding(crate::specs::Publics::object_public))]
fn object_public(
    alloc: Global,
    value: &Value,
    place: &PlaceRef<'_>,
    walk: &mut Walk,
) -> Result<ObjectPublicText, ElementFault>
    ensures { Leaves result walk.new (object_public (view value.now) place.now walk.old) }
{
    check_object(alloc, value, place)?;
    key_type(alloc, value, place)?;
    name_hash(alloc, value, place)?;
    let attributes = attributes(alloc, value, "objectAttributes", place)?;
    let auth_policy = auth_policy(alloc, value, place)?;
    let hmac = hmac(alloc, value, place)?;
    let unique = unique(alloc, value, place)?;
    let known = [
        "type",
        "nameAlg",
        "objectAttributes",
        "authPolicy",
        "scheme",
        "unique",
    ];
    note_unknown(alloc, value, &known, place, walk)?;
    Ok(ObjectPublicText {
        attributes,
        auth_policy,
        hmac,
        unique,
    })
}

#[tactic(auto, unfolding(crate::specs::Publics::index_public))]
fn index_public(
    alloc: Global,
    value: &Value,
    place: &PlaceRef<'_>,
    walk: &mut Walk,
) -> Result<NvPublicText, ElementFault>
    ensures { Leaves result walk.new (index_public (view value.now) place.now walk.old) }
{
    check_object(alloc, value, place)?;
    let index = nv_index(alloc, value, place)?;
    name_hash(alloc, value, place)?;
    let attributes = attributes(alloc, value, "attributes", place)?;
    let auth_policy = auth_policy(alloc, value, place)?;
    let size = data_size(alloc, value, place)?;
    let known = ["nvIndex", "nameAlg", "attributes", "authPolicy", "dataSize"];
    note_unknown(alloc, value, &known, place, walk)?;
    Ok(NvPublicText {
        index,
        attributes,
        auth_policy,
        size,
    })
}

/// A key's public area. An object with the member `publicArea` stands for that member, which may have it
/// again; its other members are noted after those of what it wraps.
#[tactic(auto, unfolding(crate::specs::Publics::object_public_in))]
pub fn object_public_area(
    alloc: Global,
    value: &Value,
    place: &PlaceRef<'_>,
    walk: &mut Walk,
) -> Result<ObjectPublicText, ElementFault>
    ensures { Leaves result walk.new (object_public_in (view value.now) place.now walk.old) }
{
    object_within(alloc, value, "publicArea", place, walk)
}

// The same, with wrappers of any name.
fn object_within(
    alloc: Global,
    value: &Value,
    wrapper: &str,
    place: &PlaceRef<'_>,
    walk: &mut Walk,
) -> Result<ObjectPublicText, ElementFault>
    ensures { Leaves result walk.new
        (through wrapper.now object_public (view value.now) place.now walk.old) }
{
    match member(value, wrapper) {
        Some(inner) => {
            let inner_place = (&*place).member(&*wrapper);
            let area = object_within(alloc, inner, wrapper, &inner_place, walk)?;
            note_unknown(alloc, value, &[wrapper], place, walk)?;
            Ok(area)
        }
        None => object_public(alloc, value, place, walk),
    }
}

/// An index's public area, within wrappers of the member `nvPublic` as a key's.
#[tactic(auto, unfolding(crate::specs::Publics::index_public_in))]
pub fn index_public_area(
    alloc: Global,
    value: &Value,
    place: &PlaceRef<'_>,
    walk: &mut Walk,
) -> Result<NvPublicText, ElementFault>
    ensures { Leaves result walk.new (index_public_in (view value.now) place.now walk.old) }
{
    index_within(alloc, value, "nvPublic", place, walk)
}

fn index_within(
    alloc: Global,
    value: &Value,
    wrapper: &str,
    place: &PlaceRef<'_>,
    walk: &mut Walk,
) -> Result<NvPublicText, ElementFault>
    ensures { Leaves result walk.new
        (through wrapper.now index_public (view value.now) place.now walk.old) }
{
    match member(value, wrapper) {
        Some(inner) => {
            let inner_place = (&*place).member(&*wrapper);
            let area = index_within(alloc, inner, wrapper, &inner_place, walk)?;
            note_unknown(alloc, value, &[wrapper], place, walk)?;
            Ok(area)
        }
        None => index_public(alloc, value, place, walk),
    }
}
