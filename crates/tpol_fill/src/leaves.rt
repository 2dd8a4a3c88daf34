//! The elements that hold no list of elements: each with a value in place of its wish.

ghost use Rattle.std.specs.Prelude.{◌≡◌, true, IfErr, IfOk, None};
ghost use Rattle.std.specs.Option.{option_copied};
ghost use Rattle.tpol_fill.specs.Filling.{FillsElement, IsWritten, NamesEntity, filled_element, index_member, key_member};
ghost use Rattle.tpol_fill.specs.declared.fault.FillFault.TheVariants.{NoMemory as no_memory};
ghost use Rattle.tpol_tree.specs.declared.policy.Element.TheVariants.{Authorize, AuthorizeNv, Duplication, NameHash, Nv, Pcr, Secret, Signed};

use crate::entities::{
    name_of_entity_wish, name_of_index_wish, name_of_key_wish, name_of_parent_wish,
};
use crate::fault::fault_at;
use crate::names::fill_names;
use crate::pcrs::fill_pcrs;
use crate::{FillFault, FillKind};
use std::alloc::Global;
use tpol_base::{Blob, Compare, Digest32, Name};
use tpol_json::PlaceRef;
use tpol_name::Sight;
use tpol_tree::{
    Assertion, ClosedElement, Element, EntityWish, IndexWish, KeyWish, NamesWish, ParentWish,
    PcrWish,
};

/// A POLICYPCR that stands at `place`, with the values of its PCRs and their digest.
pub fn fill_pcr(
    alloc: Global,
    wish: &PcrWish,
    sight: Option<&Sight>,
    place: &PlaceRef<'_>,
) -> Result<ClosedElement, FillFault>
    ensures { FillsElement (option_copied sight.entry) true place.now (Pcr wish.now) result }
{
    let assertion = fill_pcrs(alloc, wish, sight, place)?;
    Ok(ClosedElement::Assert(assertion))
}

/// A POLICYNAMEHASH that stands at `place`, with the digest of its Names.
pub fn fill_name_hash(
    alloc: Global,
    wish: &NamesWish,
    sight: Option<&Sight>,
    place: &PlaceRef<'_>,
) -> Result<ClosedElement, FillFault>
    ensures { FillsElement (option_copied sight.entry) true place.now (NameHash wish.now) result }
{
    let digest = fill_names(alloc, wish, sight, place)?;
    Ok(ClosedElement::Assert(Assertion::NameHash(digest)))
}

/// A POLICYNV, POLICYSECRET or POLICYSIGNED that stands at `place`, with the Name of its entity.
pub fn fill_entity(
    alloc: Global,
    element: &Element,
    sight: Option<&Sight>,
    place: &PlaceRef<'_>,
) -> Result<ClosedElement, FillFault>
    requires { NamesEntity element.now }
    ensures { FillsElement (option_copied sight.entry) true place.now element.now result }
{
    match element {
        Element::Nv {
            index,
            operand,
            offset,
            operation,
        } => fill_nv(alloc, index, operand, *offset, *operation, sight, place),
        Element::Secret {
            entity,
            policy_ref,
            cp_hash,
            expiration,
        } => fill_secret(
            alloc,
            entity,
            policy_ref,
            *cp_hash,
            *expiration,
            sight,
            place,
        ),
        Element::Signed {
            key,
            policy_ref,
            cp_hash,
            expiration,
        } => fill_signed(alloc, key, policy_ref, *cp_hash, *expiration, sight, place),
        _ => unreachable!(),
    }
}

/// An element that has no wish.
pub fn fill_written(alloc: Global, element: &Element) -> Result<ClosedElement, FillFault>
    requires { IsWritten element.now }
    ensures element { IfOk result (λ closed. closed ≡ filled_element None element.now) }
    ensures memory { IfErr result (λ fault. fault ≡ no_memory) }
{
    let assertion = match element {
        Element::Locality(locality) => Assertion::Locality(*locality),
        Element::CommandCode(code) => Assertion::CommandCode(*code),
        Element::CpHash(digest) => Assertion::CpHash(*digest),
        Element::CounterTimer {
            operand,
            offset,
            operation,
        } => Assertion::CounterTimer {
            operand: Blob::from_slice(alloc, operand.as_slice())?,
            offset: *offset,
            operation: *operation,
        },
        Element::NvWritten(written) => Assertion::NvWritten(*written),
        Element::AuthValue => Assertion::AuthValue,
        Element::Password => Assertion::Password,
        Element::PhysicalPresence => Assertion::PhysicalPresence,
        _ => unreachable!(),
    };
    Ok(ClosedElement::Assert(assertion))
}

// A POLICYNV.
fn fill_nv(
    alloc: Global,
    index: &IndexWish,
    operand: &Blob,
    offset: u16,
    operation: Compare,
    sight: Option<&Sight>,
    place: &PlaceRef<'_>,
) -> Result<ClosedElement, FillFault>
    ensures { FillsElement (option_copied sight.entry) true place.now
        (Nv index.now operand.now offset operation) result }
{
    match name_of_index_wish(index, sight) {
        Ok(name) => Ok(ClosedElement::Assert(Assertion::Nv {
            index: name,
            operand: Blob::from_slice(alloc, operand.as_slice())?,
            offset,
            operation,
        })),
        Err(kind) => Err(fault_at(alloc, kind, &place.member(index_member(index)))),
    }
}

// A POLICYSECRET.
fn fill_secret(
    alloc: Global,
    entity: &EntityWish,
    policy_ref: &Blob,
    cp_hash: Option<Digest32>,
    expiration: i32,
    sight: Option<&Sight>,
    place: &PlaceRef<'_>,
) -> Result<ClosedElement, FillFault>
    ensures { FillsElement (option_copied sight.entry) true place.now
        (Secret entity.now policy_ref.now cp_hash expiration) result }
{
    match name_of_entity_wish(entity, sight) {
        Ok(name) => Ok(ClosedElement::Assert(Assertion::Secret {
            entity: name,
            policy_ref: Blob::from_slice(alloc, policy_ref.as_slice())?,
            cp_hash,
            expiration,
        })),
        Err(kind) => Err(fault_at(alloc, kind, &place.member("objectPath"))),
    }
}

// A POLICYSIGNED.
fn fill_signed(
    alloc: Global,
    key: &KeyWish,
    policy_ref: &Blob,
    cp_hash: Option<Digest32>,
    expiration: i32,
    sight: Option<&Sight>,
    place: &PlaceRef<'_>,
) -> Result<ClosedElement, FillFault>
    ensures { FillsElement (option_copied sight.entry) true place.now
        (Signed key.now policy_ref.now cp_hash expiration) result }
{
    match name_of_key_wish(key, sight) {
        Ok(name) => Ok(ClosedElement::Assert(Assertion::Signed {
            key: name,
            policy_ref: Blob::from_slice(alloc, policy_ref.as_slice())?,
            cp_hash,
            expiration,
        })),
        Err(kind) => Err(fault_at(alloc, kind, &place.member(key_member(key)))),
    }
}

/// A POLICYDUPLICATIONSELECT that stands at `place`, with the Name of the new parent.
pub fn fill_duplication(
    alloc: Global,
    object: Name,
    parent: &ParentWish,
    include: bool,
    sight: Option<&Sight>,
    place: &PlaceRef<'_>,
) -> Result<ClosedElement, FillFault>
    ensures { FillsElement (option_copied sight.entry) true place.now
        (Duplication object parent.now include) result }
{
    match name_of_parent_wish(parent, sight) {
        Ok(name) => Ok(ClosedElement::Assert(Assertion::Duplication {
            object,
            parent: name,
            include,
        })),
        Err(kind) => Err(fault_at(alloc, kind, &place.member("newParentPath"))),
    }
}

/// A POLICYAUTHORIZE that stands at `place`, with the Name of its key. `leads` says whether no element stands
/// before it.
pub fn fill_authorize(
    alloc: Global,
    key: &KeyWish,
    policy_ref: &Blob,
    sight: Option<&Sight>,
    leads: bool,
    place: &PlaceRef<'_>,
) -> Result<ClosedElement, FillFault>
    ensures { FillsElement (option_copied sight.entry) leads place.now
        (Authorize key.now policy_ref.now) result }
{
    if !leads {
        return Err(fault_at(alloc, FillKind::VoidPrefix, place));
    }
    match name_of_key_wish(key, sight) {
        Ok(name) => Ok(ClosedElement::Authorize {
            key: name,
            policy_ref: Blob::from_slice(alloc, policy_ref.as_slice())?,
        }),
        Err(kind) => Err(fault_at(alloc, kind, &place.member(key_member(key)))),
    }
}

/// A POLICYAUTHORIZENV that stands at `place`, with the Name of its index. `leads` says whether no element
/// stands before it.
pub fn fill_authorize_nv(
    alloc: Global,
    index: &IndexWish,
    sight: Option<&Sight>,
    leads: bool,
    place: &PlaceRef<'_>,
) -> Result<ClosedElement, FillFault>
    ensures { FillsElement (option_copied sight.entry) leads place.now
        (AuthorizeNv index.now) result }
{
    if !leads {
        return Err(fault_at(alloc, FillKind::VoidPrefix, place));
    }
    match name_of_index_wish(index, sight) {
        Ok(name) => Ok(ClosedElement::AuthorizeNv { index: name }),
        Err(kind) => Err(fault_at(alloc, kind, &place.member(index_member(index)))),
    }
}

// The member that a key is written as.
fn key_member(key: &KeyWish) -> &'static str
    ensures { result.now ≡ key_member key.now }
{
    match key {
        KeyWish::Path(_) => "keyPath",
        KeyWish::Public(_) => "keyPublic",
    }
}

// The member that an index is written as.
fn index_member(index: &IndexWish) -> &'static str
    ensures { result.now ≡ index_member index.now }
{
    match index {
        IndexWish::Path(_) => "nvPath",
        IndexWish::Public(_) => "nvPublic",
    }
}
