//! The PCRs of a POLICYPCR.

ghost use Rattle.std.specs.Prelude.{◌≡◌, ◌≤◌, ◌^◌, [], length, nat_lt, position, IfSome, OnOk};
ghost use Rattle.serde_json.specs.View.{view, items_view};
ghost use Rattle.tpol_json.specs.Reading.{Gives};
ghost use Rattle.tpol_members.specs.Pcrs.{bank_in, banks_in, current_pcrs_in, has_value, mask_from, mask_in, new_pcr_in, only_bank, pcr_bit, pcr_member, pcr_value_in, pcr_values_from, pcr_values_in, pcrs_at, pcrs_in, select_member, value_member, with_value, bank_member};
ghost use Rattle.tpol_members.specs.Walks.{Leaves};

use crate::algorithms::check_hash;
use crate::members::{alone, first_of, note_unknown};
use crate::{ElementFault, PolicyKind, Walk};
use serde_json::Value;
use std::alloc::Global;
use tpol_base::{Digest32, NoMemory};
use tpol_json::{PlaceRef, check_object, digest, items, needed, refuse, unsigned};
use tpol_tree::{PcrValues, PcrWish};

fn has_value(values: &[(u8, Digest32)], pcr: u8) -> bool
    ensures { result ≡ has_value values.now pcr }
{
    values.iter().any(|value| value.0 == pcr)
}

// The values with one more, before the first of a greater PCR.
#[tactic(auto, unfolding(crate::specs::Pcrs::with_value))]
fn insert_value(values: &mut Vec<(u8, Digest32)>, pcr: u8, digest: Digest32) -> Result<(), NoMemory>
    ensures { OnOk result (values.new.items ≡ with_value values.old.items pcr digest) }
{
    let greater = first_greater(values.as_slice(), pcr);
    let at = greater.unwrap_or(values.len());
    values.insert(at, (pcr, digest))?;
    Ok(())
}

fn first_greater(values: &[(u8, Digest32)], pcr: u8) -> Option<usize>
    ensures value { result ≡ position (λ value. nat_lt pcr value.0) values.now }
    ensures within { IfSome result (λ at. at ≤ length values.now) }
{
    values.iter().position(|value| pcr < value.0)
}

// A PCR that has no value yet.
fn new_pcr(
    alloc: Global,
    value: &Value,
    values: &[(u8, Digest32)],
    place: &PlaceRef<'_>,
) -> Result<u8, ElementFault>
    ensures { Gives result (new_pcr_in values.now (view value.now) place.now) }
{
    let pcr = unsigned(alloc, value, 0, 31, place)? as u8;
    if has_value(values, pcr) {
        refuse(alloc, PolicyKind::Twice, place)
    } else {
        Ok(pcr)
    }
}

#[tactic(auto, unfolding(crate::specs::Pcrs::pcr_member))]
fn pcr_member(
    alloc: Global,
    value: &Value,
    values: &[(u8, Digest32)],
    place: &PlaceRef<'_>,
) -> Result<u8, ElementFault>
    ensures { Gives result (pcr_member values.now (view value.now) place.now) }
{
    let (number, place) = needed(alloc, value, "pcr", place)?;
    new_pcr(alloc, number, values, &place)
}

// SHA-256 under this name.
#[tactic(auto, unfolding(crate::specs::Pcrs::bank_member))]
fn bank_member(
    alloc: Global,
    value: &Value,
    name: &str,
    place: &PlaceRef<'_>,
) -> Result<(), ElementFault>
    ensures { Gives result (bank_member name.now (view value.now) place.now) }
{
    let (word, place) = needed(alloc, value, name, place)?;
    check_hash(alloc, word, &place)
}

#[tactic(auto, unfolding(crate::specs::Pcrs::value_member))]
fn value_member(
    alloc: Global,
    value: &Value,
    place: &PlaceRef<'_>,
) -> Result<Digest32, ElementFault>
    ensures { Gives result (value_member (view value.now) place.now) }
{
    let (bytes, place) = needed(alloc, value, "digest", place)?;
    Ok(digest(alloc, bytes, &place)?)
}

// An item of `pcrs`: a PCR that is none of those before it, with its value.
#[tactic(auto, unfolding(crate::specs::Pcrs::pcr_value_in))]
fn pcr_value(
    alloc: Global,
    value: &Value,
    values: &[(u8, Digest32)],
    place: &PlaceRef<'_>,
    walk: &mut Walk,
) -> Result<(u8, Digest32), ElementFault>
    ensures { Leaves result walk.new (pcr_value_in values.now (view value.now) place.now walk.old) }
{
    check_object(alloc, value, place)?;
    let pcr = pcr_member(alloc, value, values, place)?;
    bank_member(alloc, value, "hashAlg", place)?;
    let digest = value_member(alloc, value, place)?;
    note_unknown(alloc, value, &["pcr", "hashAlg", "digest"], place, walk)?;
    Ok((pcr, digest))
}

fn pcr_values(
    alloc: Global,
    items: &[Value],
    place: &PlaceRef<'_>,
    walk: &mut Walk,
) -> Result<PcrValues, ElementFault>
    ensures { Leaves result walk.new
        (pcr_values_from [] 0 (items_view items.now) place.now walk.old) }
{
    let mut values = Vec::new(alloc);
    for (index, item) in items.iter().enumerate() {
        let at = (&*place).item(index);
        let (pcr, digest) = pcr_value(alloc, item, values.as_slice(), &at, walk)?;
        insert_value(&mut values, pcr, digest)?;
    }
    Ok(PcrValues::from_vec(values))
}

fn wish_of_values(
    alloc: Global,
    value: &Value,
    place: &PlaceRef<'_>,
    walk: &mut Walk,
) -> Result<PcrWish, ElementFault>
    ensures { Leaves result walk.new (pcr_values_in walk.old (view value.now) place.now) }
{
    match value.as_array() {
        Some(items) => {
            let values = pcr_values(alloc, items.as_slice(), place, walk)?;
            Ok(PcrWish::Values(values))
        }
        None => refuse(alloc, PolicyKind::WrongKind, place),
    }
}

fn bit(pcr: u32) -> u32
    requires { pcr ≤ 31 }
    ensures { result ≡ 2 ^ pcr }
{
    1 << pcr
}

fn mask_of(alloc: Global, items: &[Value], place: &PlaceRef<'_>) -> Result<u32, ElementFault>
    ensures { Gives result (mask_from 0 0 (items_view items.now) place.now) }
{
    let mut mask = 0;
    for (index, item) in items.iter().enumerate() {
        mask |= pcr_bit(alloc, item, &(&*place).item(index))?;
    }
    Ok(mask)
}

fn pcr_bit(alloc: Global, value: &Value, place: &PlaceRef<'_>) -> Result<u32, ElementFault>
    ensures { Gives result (pcr_bit (view value.now) place.now) }
{
    let pcr = unsigned(alloc, value, 0, 31, place)?;
    Ok(bit(pcr as u32))
}

// A list of PCRs as a mask.
fn mask(alloc: Global, value: &Value, place: &PlaceRef<'_>) -> Result<u32, ElementFault>
    ensures { Gives result (mask_in (view value.now) place.now) }
{
    match value.as_array() {
        Some(items) => mask_of(alloc, items.as_slice(), place),
        None => refuse(alloc, PolicyKind::WrongKind, place),
    }
}

fn current_pcrs(alloc: Global, value: &Value, place: &PlaceRef<'_>) -> Result<PcrWish, ElementFault>
    ensures { Gives result (current_pcrs_in (view value.now) place.now) }
{
    Ok(PcrWish::Current(mask(alloc, value, place)?))
}

#[tactic(auto, unfolding(crate::specs::Pcrs::select_member))]
fn select_member(alloc: Global, value: &Value, place: &PlaceRef<'_>) -> Result<u32, ElementFault>
    ensures { Gives result (select_member (view value.now) place.now) }
{
    let (list, place) = needed(alloc, value, "pcrSelect", place)?;
    mask(alloc, list, &place)
}

#[tactic(auto, unfolding(crate::specs::Pcrs::bank_in))]
fn bank(
    alloc: Global,
    value: &Value,
    place: &PlaceRef<'_>,
    walk: &mut Walk,
) -> Result<PcrWish, ElementFault>
    ensures { Leaves result walk.new (bank_in walk.old (view value.now) place.now) }
{
    check_object(alloc, value, place)?;
    bank_member(alloc, value, "hash", place)?;
    let mask = select_member(alloc, value, place)?;
    note_unknown(alloc, value, &["hash", "pcrSelect"], place, walk)?;
    Ok(PcrWish::Current(mask))
}

fn only_bank(
    alloc: Global,
    items: &[Value],
    place: &PlaceRef<'_>,
    walk: &mut Walk,
) -> Result<PcrWish, ElementFault>
    ensures { Leaves result walk.new (only_bank walk.old (items_view items.now) place.now) }
{
    match items {
        [] => refuse(alloc, PolicyKind::BadNumber, place),
        [only] => bank(alloc, only, &place.item(0), walk),
        [_, _, ..] => refuse(alloc, PolicyKind::BadNumber, place),
    }
}

// A bank, or a list of one.
fn banks(
    alloc: Global,
    value: &Value,
    place: &PlaceRef<'_>,
    walk: &mut Walk,
) -> Result<PcrWish, ElementFault>
    ensures { Leaves result walk.new (banks_in walk.old (view value.now) place.now) }
{
    match value.as_array() {
        Some(items) => only_bank(alloc, items.as_slice(), place, walk),
        None => bank(alloc, value, place, walk),
    }
}

#[tactic(auto, unfolding(crate::specs::Pcrs::pcrs_at))]
fn pcrs_at(
    alloc: Global,
    position: usize,
    value: &Value,
    place: &PlaceRef<'_>,
    walk: &mut Walk,
) -> Result<PcrWish, ElementFault>
    ensures { Leaves result walk.new (pcrs_at walk.old position (view value.now) place.now) }
{
    match position {
        0 => wish_of_values(alloc, value, place, walk),
        1 => current_pcrs(alloc, value, place),
        _ => banks(alloc, value, place, walk),
    }
}

/// One of `pcrs`, `currentPCRs` and `currentPCRandBanks`. `Missing` without one, `Twice` at a further one
/// and at a PCR that has a value already; `WrongKind`, `BadNumber`, `BadHex`, `OtherHash` or `Missing` as
/// the lists' items have it, and `BadNumber` for a list of banks that is not of one.
#[tactic(auto, unfolding(crate::specs::Pcrs::pcrs_in))]
pub fn pcr_wish(
    alloc: Global,
    value: &Value,
    place: &PlaceRef<'_>,
    walk: &mut Walk,
) -> Result<PcrWish, ElementFault>
    ensures { Leaves result walk.new (pcrs_in (view value.now) place.now walk.old) }
{
    let names = ["pcrs", "currentPCRs", "currentPCRandBanks"];
    let (position, found, name) = first_of(alloc, value, &names, place)?;
    let wish = pcrs_at(alloc, position, found, &place.member(name), walk)?;
    alone(alloc, value, &names, position, place)?;
    Ok(wish)
}
