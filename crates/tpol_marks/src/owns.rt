//! The digests that an export has itself.

ghost use Rattle.std.specs.Prelude.{◌≡◌, ◌++◌, IfOk, OnOk, option_map};
ghost use Rattle.serde_json.specs.View.{items_view, view};
ghost use Rattle.tpol_marks.specs.Owns.{digest_of_text, digests_member, is_sha256, list_of, one_step, own_digest, own_digests, own_digests_in, within};

use serde_json::Value;
use std::alloc::Global;
use tpol_base::{Digest32, Digests, NoMemory};
use tpol_json::{Fault, Place, PlaceRef, PlaceStep, digest, member, word_in};

/// The SHA-256 digests that a document tells of the element at a place, in its member `policyDigests`: 32 bytes as
/// documents write them. What is none is passed over. It fails only where memory ran out.
#[tactic(auto, unfolding(crate::specs::Owns::own_digests))]
pub fn own_digests(alloc: Global, document: &Value, place: &Place) -> Result<Digests, NoMemory>
    ensures { IfOk result (λ digests. digests ≡ own_digests place.now (view document.now)) }
{
    match within(document, place.steps.as_slice()).and_then(digests_member) {
        Some(items) => own_digests_in(alloc, items),
        None => Ok(Digests::new(alloc)),
    }
}

// What stands so many steps within a value.
fn within<'a>(value: &'a Value, steps: &[PlaceStep]) -> Option<&'a Value>
    ensures { option_map (λ v. view v.now) result ≡ within steps.now (view value.now) }
{
    match steps.split_first() {
        None => Some(value),
        Some((step, rest)) => within(one_step(value, step)?, rest),
    }
}

fn one_step<'a>(value: &'a Value, step: &PlaceStep) -> Option<&'a Value>
    ensures { option_map (λ v. view v.now) result ≡ one_step step.now (view value.now) }
{
    match step {
        PlaceStep::Member(name) => value.get(name.as_str()),
        PlaceStep::Item(index) => value.get(*index as usize),
    }
}

// The items of an element's member `policyDigests`, if it is a list.
fn digests_member(element: &Value) -> Option<&[Value]>
    ensures { option_map (λ items. items_view items.now) result
        ≡ digests_member (view element.now) }
{
    match member(element, "policyDigests") {
        Some(Value::Array(items)) => Some(items.as_slice()),
        _ => None,
    }
}

// The digests that these items tell.
fn own_digests_in(alloc: Global, items: &[Value]) -> Result<Digests, NoMemory>
    ensures { IfOk result (λ digests. digests ≡ own_digests_in (items_view items.now)) }
{
    let mut digests = Digests::new(alloc);
    for item in items {
        push_own(alloc, &mut digests, item)?;
    }
    Ok(digests)
}

// Adds the digest that an item tells, if it tells one.
fn push_own(alloc: Global, digests: &mut Digests, item: &Value) -> Result<(), NoMemory>
    ensures { OnOk result (digests.new ≡ digests.old ++ list_of (own_digest (view item.now))) }
{
    if let Some(digest) = own_digest(alloc, item)? {
        digests.push(digest)?;
    }
    Ok(())
}

// The digest that an item of `policyDigests` tells, if it is of SHA-256 and tells one.
fn own_digest(alloc: Global, item: &Value) -> Result<Option<Digest32>, NoMemory>
    ensures { IfOk result (λ digest. digest ≡ own_digest (view item.now)) }
{
    if is_sha256(member(item, "hashAlg")) {
        digest_of_text(alloc, member(item, "digest"))
    } else {
        Ok(None)
    }
}

// Whether a hash is SHA-256.
fn is_sha256(hash: Option<&Value>) -> bool
    ensures { result ≡ is_sha256 (option_map (λ v. view v.now) hash.entry) }
{
    match hash {
        Some(hash) => word_in(hash, "TPM2_ALG_", &[("SHA256", ())]).is_some(),
        None => false,
    }
}

// 32 bytes as documents write them; None for anything else.
fn digest_of_text(alloc: Global, text: Option<&Value>) -> Result<Option<Digest32>, NoMemory>
    ensures { IfOk result (λ digest. digest
        ≡ digest_of_text (option_map (λ v. view v.now) text.entry)) }
{
    let Some(text) = text else {
        return Ok(None);
    };
    let root = Place::root(alloc);
    match digest(alloc, text, &PlaceRef::at(&root)) {
        Ok(digest) => Ok(Some(digest)),
        Err(Fault::Bad { .. }) => Ok(None),
        Err(Fault::NoMemory) => Err(NoMemory),
    }
}
