//! Authorizations by asymmetric keys, which are left out.

ghost use Rattle.std.specs.Prelude.{◌≡◌, ◌++◌, Some, option_map, IfOk, OnOk};
ghost use Rattle.serde_json.specs.View.{items_view, view};
ghost use Rattle.tpol_json.specs.Places.{at_item};
ghost use Rattle.tpol_adopt.specs.Dropped.{approvals_place, approving_key, dropped, dropped_at, dropped_from, innermost, is_asymmetric, is_asymmetric_key, is_by_index};

use crate::words::{has, says};
use serde_json::Value;
use std::alloc::Global;
use tpol_base::NoMemory;
use tpol_json::{Notes, Place, PlaceRef, member, same_word};

/// What a public area is within its wrappers, if it has any.
fn innermost(value: &Value) -> &Value
    ensures { view result.now ≡ innermost (view value.now) }
{
    match member(value, "publicArea") {
        Some(inner) => innermost(inner),
        None => value,
    }
}

fn is_asymmetric_key(value: &Value) -> bool
    ensures { result ≡ is_asymmetric_key (Some (view value.now)) }
{
    let public = innermost(value);
    says(public, "type", "RSA") || says(public, "type", "ECC")
}

// The public area of an authorization's key.
fn approving_key(value: &Value) -> Option<&Value>
    ensures { option_map (λ v. view v.now) result ≡ approving_key (view value.now) }
{
    if has(value, "keyPublic") {
        member(value, "keyPublic")
    } else {
        member(value, "key")
    }
}

// Whether an authorization is by an index. Its type is read in any case.
fn is_by_index(value: &Value) -> bool
    ensures { result ≡ is_by_index (view value.now) }
{
    match member(value, "type").and_then(Value::as_str) {
        Some(text) => same_word(text, "", "nv"),
        None => false,
    }
}

/// Whether an authorization is by a key that is RSA or ECC. One by an index has no key, whatever `keyPEM` stands
/// in it.
#[tactic(auto, unfolding(crate::specs::Dropped::is_asymmetric))]
pub fn is_asymmetric(value: &Value) -> bool
    ensures { result ≡ is_asymmetric (view value.now) }
{
    if says(value, "type", "pem") || (has(value, "keyPEM") && !is_by_index(value)) {
        return true;
    }
    match approving_key(value) {
        Some(key) => is_asymmetric_key(key) && says(value, "type", "tpm"),
        None => false,
    }
}

/// The places of the authorizations of a document that `normal` leaves out, in reading order: those by a key that
/// is RSA or ECC, which can only fit an AUTHORIZE that the profile refuses.
#[tactic(auto, unfolding(crate::specs::Dropped::dropped, crate::specs::Dropped::dropped_from))]
pub fn dropped(alloc: Global, value: &Value) -> Result<Notes, NoMemory>
    ensures { IfOk result (λ places. places ≡ dropped (view value.now)) }
{
    match member(value, "policyAuthorizations") {
        Some(Value::Array(approvals)) => dropped_of(alloc, approvals.as_slice()),
        _ => Ok(Notes::new(alloc)),
    }
}

// The places of those among these authorizations.
#[tactic(auto, unfolding(crate::specs::Dropped::dropped_from))]
fn dropped_of(alloc: Global, approvals: &[Value]) -> Result<Notes, NoMemory>
    ensures { IfOk result (λ places. places ≡ dropped_from 0 (items_view approvals.now)) }
{
    let mut places = Notes::new(alloc);
    for (index, approval) in approvals.iter().enumerate() {
        push_dropped(alloc, &mut places, index, approval)?;
    }
    Ok(places)
}

// The place of the authorization at this position behind these, if it is left out.
fn push_dropped(
    alloc: Global,
    places: &mut Notes,
    index: usize,
    approval: &Value,
) -> Result<(), NoMemory>
    ensures { OnOk result (places.new ≡ places.old ++ dropped_at index (view approval.now)) }
{
    if is_asymmetric(approval) {
        places.push(place_of(alloc, index)?)?;
    }
    Ok(())
}

// The place of the authorization at this position.
fn place_of(alloc: Global, index: usize) -> Result<Place, NoMemory>
    ensures { IfOk result (λ place. place ≡ at_item approvals_place index) }
{
    let root = Place::root(alloc);
    let document = PlaceRef::at(&root);
    let list = document.member("policyAuthorizations");
    list.item(index).to_place(alloc)
}
