//! What the members of each element say that holds no other elements.

ghost use Rattle.serde_json.specs.View.{view};
ghost use Rattle.tpol_json.specs.Reading.{Gives};
ghost use Rattle.tpol_elements.specs.Rows.{authorize_nv_row, authorize_row, command_code_row, counter_timer_row, cp_hash_row, duplication_row, include_member, included_object, leaf_row, locality_member, locality_row, name_hash_row, nv_row, nv_written_row, object_member, pcr_row, secret_row, signed_row, without_pem, written_member};
ghost use Rattle.tpol_members.specs.Walks.{Leaves};

use crate::LeafType;
use crate::wishes::{entity_wish, index_wish, key_wish, names_wish, parent_wish};
use serde_json::Value;
use std::alloc::Global;
use tpol_base::Name;
use tpol_json::{PlaceRef, digest, member, name, needed, refuse, truth};
use tpol_members::{
    ElementFault, PolicyKind, Walk, code, cp_hash, expiration, localities, offset, operand,
    operation_member, pcr_wish, policy_ref,
};
use tpol_tree::Element;

/// No `keyPEM` may stand here: it holds an asymmetric key, and is `AsymmetricKey` at its own place.
#[tactic(auto, unfolding(crate::specs::Rows::without_pem))]
pub fn without_pem(alloc: Global, value: &Value, place: &PlaceRef<'_>) -> Result<(), ElementFault>
    ensures { Gives result (without_pem (view value.now) place.now) }
{
    if member(value, "keyPEM").is_some() {
        refuse(alloc, PolicyKind::AsymmetricKey, &place.member("keyPEM"))
    } else {
        Ok(())
    }
}

#[tactic(auto, unfolding(crate::specs::Rows::pcr_row))]
fn pcr_row(
    alloc: Global,
    value: &Value,
    place: &PlaceRef<'_>,
    walk: &mut Walk,
) -> Result<Element, ElementFault>
    ensures { Leaves result walk.new (pcr_row (view value.now) place.now walk.old) }
{
    Ok(Element::Pcr(pcr_wish(alloc, value, place, walk)?))
}

#[tactic(auto, unfolding(crate::specs::Rows::nv_row))]
fn nv_row(
    alloc: Global,
    value: &Value,
    place: &PlaceRef<'_>,
    walk: &mut Walk,
) -> Result<Element, ElementFault>
    ensures { Leaves result walk.new (nv_row (view value.now) place.now walk.old) }
{
    let index = index_wish(alloc, value, place, walk)?;
    let operand = operand(alloc, value, place)?;
    let offset = offset(alloc, value, place)?;
    let operation = operation_member(alloc, value, place)?;
    Ok(Element::Nv {
        index,
        operand,
        offset,
        operation,
    })
}

#[tactic(auto, unfolding(crate::specs::Rows::secret_row))]
fn secret_row(alloc: Global, value: &Value, place: &PlaceRef<'_>) -> Result<Element, ElementFault>
    ensures { Gives result (secret_row (view value.now) place.now) }
{
    let entity = entity_wish(alloc, value, place)?;
    let policy_ref = policy_ref(alloc, value, place)?;
    let cp_hash = cp_hash(alloc, value, place)?;
    let expiration = expiration(alloc, value, place)?;
    Ok(Element::Secret {
        entity,
        policy_ref,
        cp_hash,
        expiration,
    })
}

#[tactic(auto, unfolding(crate::specs::Rows::signed_row))]
fn signed_row(
    alloc: Global,
    value: &Value,
    place: &PlaceRef<'_>,
    walk: &mut Walk,
) -> Result<Element, ElementFault>
    ensures { Leaves result walk.new (signed_row (view value.now) place.now walk.old) }
{
    without_pem(alloc, value, place)?;
    let key = key_wish(alloc, value, "publicKey", place, walk)?;
    let policy_ref = policy_ref(alloc, value, place)?;
    let cp_hash = cp_hash(alloc, value, place)?;
    let expiration = expiration(alloc, value, place)?;
    Ok(Element::Signed {
        key,
        policy_ref,
        cp_hash,
        expiration,
    })
}

#[tactic(auto, unfolding(crate::specs::Rows::authorize_row))]
fn authorize_row(
    alloc: Global,
    value: &Value,
    place: &PlaceRef<'_>,
    walk: &mut Walk,
) -> Result<Element, ElementFault>
    ensures { Leaves result walk.new (authorize_row (view value.now) place.now walk.old) }
{
    without_pem(alloc, value, place)?;
    let key = key_wish(alloc, value, "publicKey", place, walk)?;
    let policy_ref = policy_ref(alloc, value, place)?;
    Ok(Element::Authorize { key, policy_ref })
}

#[tactic(auto, unfolding(crate::specs::Rows::authorize_nv_row))]
fn authorize_nv_row(
    alloc: Global,
    value: &Value,
    place: &PlaceRef<'_>,
    walk: &mut Walk,
) -> Result<Element, ElementFault>
    ensures { Leaves result walk.new (authorize_nv_row (view value.now) place.now walk.old) }
{
    let index = index_wish(alloc, value, place, walk)?;
    Ok(Element::AuthorizeNv { index })
}

#[tactic(auto, unfolding(crate::specs::Rows::locality_member))]
fn locality_member(alloc: Global, value: &Value, place: &PlaceRef<'_>) -> Result<u8, ElementFault>
    ensures { Gives result (locality_member (view value.now) place.now) }
{
    let (found, place) = needed(alloc, value, "locality", place)?;
    localities(alloc, found, &place)
}

#[tactic(auto, unfolding(crate::specs::Rows::locality_row))]
fn locality_row(alloc: Global, value: &Value, place: &PlaceRef<'_>) -> Result<Element, ElementFault>
    ensures { Gives result (locality_row (view value.now) place.now) }
{
    Ok(Element::Locality(locality_member(alloc, value, place)?))
}

#[tactic(auto, unfolding(crate::specs::Rows::command_code_row))]
fn command_code_row(
    alloc: Global,
    value: &Value,
    place: &PlaceRef<'_>,
) -> Result<Element, ElementFault>
    ensures { Gives result (command_code_row (view value.now) place.now) }
{
    let (found, place) = needed(alloc, value, "code", place)?;
    let code = code(alloc, found, &place)?;
    Ok(Element::CommandCode(code))
}

#[tactic(auto, unfolding(crate::specs::Rows::cp_hash_row))]
fn cp_hash_row(alloc: Global, value: &Value, place: &PlaceRef<'_>) -> Result<Element, ElementFault>
    ensures { Gives result (cp_hash_row (view value.now) place.now) }
{
    let (found, place) = needed(alloc, value, "cpHash", place)?;
    let digest = digest(alloc, found, &place)?;
    Ok(Element::CpHash(digest))
}

#[tactic(auto, unfolding(crate::specs::Rows::name_hash_row))]
fn name_hash_row(
    alloc: Global,
    value: &Value,
    place: &PlaceRef<'_>,
) -> Result<Element, ElementFault>
    ensures { Gives result (name_hash_row (view value.now) place.now) }
{
    Ok(Element::NameHash(names_wish(alloc, value, place)?))
}

#[tactic(auto, unfolding(crate::specs::Rows::counter_timer_row))]
fn counter_timer_row(
    alloc: Global,
    value: &Value,
    place: &PlaceRef<'_>,
) -> Result<Element, ElementFault>
    ensures { Gives result (counter_timer_row (view value.now) place.now) }
{
    let operand = operand(alloc, value, place)?;
    let offset = offset(alloc, value, place)?;
    let operation = operation_member(alloc, value, place)?;
    Ok(Element::CounterTimer {
        operand,
        offset,
        operation,
    })
}

#[tactic(auto, unfolding(crate::specs::Rows::include_member))]
fn include_member(alloc: Global, value: &Value, place: &PlaceRef<'_>) -> Result<bool, ElementFault>
    ensures { Gives result (include_member (view value.now) place.now) }
{
    match member(value, "includeObject") {
        Some(found) => Ok(truth(alloc, found, &place.member("includeObject"))?),
        None => Ok(false),
    }
}

#[tactic(auto, unfolding(crate::specs::Rows::object_member))]
fn object_member(alloc: Global, value: &Value, place: &PlaceRef<'_>) -> Result<Name, ElementFault>
    ensures { Gives result (object_member (view value.now) place.now) }
{
    match member(value, "objectName") {
        Some(found) => Ok(name(alloc, found, &place.member("objectName"))?),
        None => Ok(Name::Empty),
    }
}

// The object's Name, which is needed where it is included.
#[tactic(auto, unfolding(crate::specs::Rows::included_object))]
fn included_object(
    alloc: Global,
    value: &Value,
    include: bool,
    place: &PlaceRef<'_>,
) -> Result<Name, ElementFault>
    ensures { Gives result (included_object include (view value.now) place.now) }
{
    match object_member(alloc, value, place)? {
        Name::Empty if include => {
            refuse(alloc, PolicyKind::Missing, &place.member("objectName"))
        }
        object => Ok(object),
    }
}

#[tactic(auto, unfolding(crate::specs::Rows::duplication_row))]
fn duplication_row(
    alloc: Global,
    value: &Value,
    place: &PlaceRef<'_>,
    walk: &mut Walk,
) -> Result<Element, ElementFault>
    ensures { Leaves result walk.new (duplication_row (view value.now) place.now walk.old) }
{
    let parent = parent_wish(alloc, value, place, walk)?;
    let include = include_member(alloc, value, place)?;
    let object = included_object(alloc, value, include, place)?;
    Ok(Element::Duplication {
        object,
        parent,
        include,
    })
}

#[tactic(auto, unfolding(crate::specs::Rows::written_member))]
fn written_member(alloc: Global, value: &Value, place: &PlaceRef<'_>) -> Result<bool, ElementFault>
    ensures { Gives result (written_member (view value.now) place.now) }
{
    match member(value, "writtenSet") {
        Some(found) => Ok(truth(alloc, found, &place.member("writtenSet"))?),
        None => Ok(true),
    }
}

#[tactic(auto, unfolding(crate::specs::Rows::nv_written_row))]
fn nv_written_row(
    alloc: Global,
    value: &Value,
    place: &PlaceRef<'_>,
) -> Result<Element, ElementFault>
    ensures { Gives result (nv_written_row (view value.now) place.now) }
{
    Ok(Element::NvWritten(written_member(alloc, value, place)?))
}

/// The element of this type, by its own members; else the first fault in them, in the order in which its
/// row reads them.
pub fn leaf_row(
    alloc: Global,
    leaf: LeafType,
    value: &Value,
    place: &PlaceRef<'_>,
    walk: &mut Walk,
) -> Result<Element, ElementFault>
    ensures { Leaves result walk.new (leaf_row leaf (view value.now) place.now walk.old) }
{
    match leaf {
        LeafType::Pcr => pcr_row(alloc, value, place, walk),
        LeafType::Nv => nv_row(alloc, value, place, walk),
        LeafType::Secret => secret_row(alloc, value, place),
        LeafType::Signed => signed_row(alloc, value, place, walk),
        LeafType::Authorize => authorize_row(alloc, value, place, walk),
        LeafType::AuthorizeNv => authorize_nv_row(alloc, value, place, walk),
        LeafType::Locality => locality_row(alloc, value, place),
        LeafType::CommandCode => command_code_row(alloc, value, place),
        LeafType::CpHash => cp_hash_row(alloc, value, place),
        LeafType::NameHash => name_hash_row(alloc, value, place),
        LeafType::CounterTimer => counter_timer_row(alloc, value, place),
        LeafType::DuplicationSelect => duplication_row(alloc, value, place, walk),
        LeafType::NvWritten => nv_written_row(alloc, value, place),
        LeafType::AuthValue => Ok(Element::AuthValue),
        LeafType::Password => Ok(Element::Password),
        LeafType::PhysicalPresence => Ok(Element::PhysicalPresence),
    }
}
