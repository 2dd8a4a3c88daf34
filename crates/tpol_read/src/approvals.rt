//! The authorizations of a document.

ghost use Rattle.std.specs.Prelude.{[]};
ghost use Rattle.serde_json.specs.View.{view, items_view};
ghost use Rattle.tpol_read.specs.Approvals.{approval_in, approval_type_in, approvals_from, approvals_member, approvals_of, by_index, by_key, counted_approval, signature_member, type_of_approval};
ghost use Rattle.serde_json.specs.Find.{as_array};
ghost use Rattle.tpol_json.specs.Reading.{Gives};
ghost use Rattle.tpol_members.specs.Walks.{Leaves};

use serde_json::Value;
use std::alloc::Global;
use tpol_base::Digest32;
use tpol_elements::{index_wish, key_wish, without_pem};
use tpol_json::{PlaceRef, check_object, digest, member, needed, refuse};
use tpol_members::{ElementFault, PolicyKind, Walk, note_unknown, only_word, policy_ref};
use tpol_tree::{ApprovalWish, ApprovalWishes};

/// How many authorizations a document may have.
pub const MAX_APPROVALS: usize = 8;

/// What an authorization is, by its `type`.
#[derive(Clone, Copy)]
pub enum ApprovalType {
    /// `tpm`: a key's signature.
    Key,
    /// `nv`: an index that holds the digest.
    Index,
    /// `pem`: an asymmetric key.
    Pem,
}

/// `policyAuthorizations`, without it none. `WrongKind` for what is no list, `TooMany` at the ninth item, and
/// else the first fault of its items.
#[tactic(auto, unfolding(crate::specs::Approvals::approvals_member))]
pub fn approvals_of_document(
    alloc: Global,
    value: &Value,
    place: &PlaceRef<'_>,
    walk: &mut Walk,
) -> Result<ApprovalWishes, ElementFault>
    ensures { Leaves result walk.new (approvals_member (view value.now) place.now walk.old) }
{
    match member(value, "policyAuthorizations") {
        Some(list) => {
            let place = place.member("policyAuthorizations");
            approval_list(alloc, list, &place, walk)
        }
        None => Ok(ApprovalWishes::new(alloc)),
    }
}

fn approval_list(
    alloc: Global,
    value: &Value,
    place: &PlaceRef<'_>,
    walk: &mut Walk,
) -> Result<ApprovalWishes, ElementFault>
    ensures { Leaves result walk.new (approvals_of (as_array (view value.now)) place.now walk.old) }
{
    match value {
        Value::Array(items) => approvals(alloc, items.as_slice(), place, walk),
        _ => refuse(alloc, PolicyKind::WrongKind, place),
    }
}

// The authorizations of a list.
#[tactic(auto, unfolding(crate::specs::Approvals::approvals_from))]
fn approvals(
    alloc: Global,
    items: &[Value],
    list: &PlaceRef<'_>,
    walk: &mut Walk,
) -> Result<ApprovalWishes, ElementFault>
    ensures { Leaves result walk.new
        (approvals_from [] 0 (items_view items.now) list.now walk.old) }
{
    let mut approvals = ApprovalWishes::new(alloc);
    for (index, item) in items.iter().enumerate() {
        let place = (&*list).item(index);
        let approval = counted_approval(alloc, index, item, &place, walk)?;
        approvals.push(approval)?;
    }
    Ok(approvals)
}

// An authorization, if it is none past the eighth.
#[tactic(auto, unfolding(crate::specs::Approvals::counted_approval))]
fn counted_approval(
    alloc: Global,
    index: usize,
    value: &Value,
    place: &PlaceRef<'_>,
    walk: &mut Walk,
) -> Result<ApprovalWish, ElementFault>
    ensures { Leaves result walk.new (counted_approval index (view value.now) place.now walk.old) }
{
    if index < MAX_APPROVALS {
        approval(alloc, value, place, walk)
    } else {
        refuse(alloc, PolicyKind::TooMany, place)
    }
}

#[tactic(auto, unfolding(crate::specs::Approvals::approval_in))]
fn approval(
    alloc: Global,
    value: &Value,
    place: &PlaceRef<'_>,
    walk: &mut Walk,
) -> Result<ApprovalWish, ElementFault>
    ensures { Leaves result walk.new (approval_in (view value.now) place.now walk.old) }
{
    check_object(alloc, value, place)?;
    without_pem(alloc, value, place)?;
    match type_of_approval(alloc, value, place)? {
        ApprovalType::Key => by_key(alloc, value, place, walk),
        ApprovalType::Index => by_index(alloc, value, place, walk),
        ApprovalType::Pem => refuse(alloc, PolicyKind::AsymmetricKey, &place.member("type")),
    }
}

#[tactic(auto, unfolding(crate::specs::Approvals::approval_type_in))]
fn type_of_approval(
    alloc: Global,
    value: &Value,
    place: &PlaceRef<'_>,
) -> Result<ApprovalType, ElementFault>
    ensures { Gives result (approval_type_in (view value.now) place.now) }
{
    let (word, place) = needed(alloc, value, "type", place)?;
    approval_type(alloc, word, &place)
}

fn approval_type(
    alloc: Global,
    value: &Value,
    place: &PlaceRef<'_>,
) -> Result<ApprovalType, ElementFault>
    ensures { Gives result (type_of_approval (view value.now) place.now) }
{
    let types = [
        ("tpm", ApprovalType::Key),
        ("nv", ApprovalType::Index),
        ("pem", ApprovalType::Pem),
    ];
    only_word(alloc, value, "", &types, PolicyKind::UnknownType, place)
}

#[tactic(auto, unfolding(crate::specs::Approvals::signature_member))]
fn signature(alloc: Global, value: &Value, place: &PlaceRef<'_>) -> Result<Digest32, ElementFault>
    ensures { Gives result (signature_member (view value.now) place.now) }
{
    let (bytes, place) = needed(alloc, value, "signature", place)?;
    Ok(digest(alloc, bytes, &place)?)
}

// An authorization by a key's signature.
#[tactic(auto, unfolding(crate::specs::Approvals::by_key))]
fn by_key(
    alloc: Global,
    value: &Value,
    place: &PlaceRef<'_>,
    walk: &mut Walk,
) -> Result<ApprovalWish, ElementFault>
    ensures { Leaves result walk.new (by_key (view value.now) place.now walk.old) }
{
    let key = key_wish(alloc, value, "key", place, walk)?;
    let policy_ref = policy_ref(alloc, value, place)?;
    let signature = signature(alloc, value, place)?;
    let known = [
        "type",
        "keyPath",
        "keyPublic",
        "key",
        "policyRef",
        "signature",
    ];
    note_unknown(alloc, value, &known, place, walk)?;
    Ok(ApprovalWish::ByKey {
        key,
        policy_ref,
        signature,
    })
}

// An authorization by an index.
#[tactic(auto, unfolding(crate::specs::Approvals::by_index))]
fn by_index(
    alloc: Global,
    value: &Value,
    place: &PlaceRef<'_>,
    walk: &mut Walk,
) -> Result<ApprovalWish, ElementFault>
    ensures { Leaves result walk.new (by_index (view value.now) place.now walk.old) }
{
    let index = index_wish(alloc, value, place, walk)?;
    let known = ["type", "nvPath", "nvPublic"];
    note_unknown(alloc, value, &known, place, walk)?;
    Ok(ApprovalWish::ByIndex { index })
}
