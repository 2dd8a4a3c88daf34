//! The members that several rows have.

ghost use Rattle.serde_json.specs.View.{view};
ghost use Rattle.tpol_json.specs.Reading.{Gives};
ghost use Rattle.tpol_members.specs.Fields.{policy_ref_in, cp_hash_in, expiration_in, operand_in, offset_in, operation_member_in};

use crate::ElementFault;
use crate::operations::operation;
use serde_json::Value;
use std::alloc::Global;
use tpol_base::{Blob, Compare, Digest32};
use tpol_json::{PlaceRef, bytes_up_to, digest, member, needed, signed_32, unsigned};

/// How many bytes a `policyRef` may have.
const MAX_POLICY_REF: usize = 64;

/// How many bytes an `operandB` may have.
const MAX_OPERAND: usize = 64;

/// `policyRef`: at most 64 bytes, without it none. `WrongKind`, `BadHex` or `BadNumber` as `bytes_of`,
/// `BadHex` for a longer one.
#[tactic(auto, unfolding(crate::specs::Fields::policy_ref_in))]
pub fn policy_ref(alloc: Global, value: &Value, place: &PlaceRef<'_>) -> Result<Blob, ElementFault>
    ensures { Gives result (policy_ref_in (view value.now) place.now) }
{
    match member(value, "policyRef") {
        Some(bytes) => {
            let place = place.member("policyRef");
            Ok(bytes_up_to(alloc, bytes, MAX_POLICY_REF, &place)?)
        }
        None => Ok(Blob::new(alloc)),
    }
}

/// `cpHashA`: 32 bytes, or left out. `WrongKind`, `BadHex` or `BadNumber` as `bytes_of`, `BadHex` for
/// another length.
#[tactic(auto, unfolding(crate::specs::Fields::cp_hash_in))]
pub fn cp_hash(
    alloc: Global,
    value: &Value,
    place: &PlaceRef<'_>,
) -> Result<Option<Digest32>, ElementFault>
    ensures { Gives result (cp_hash_in (view value.now) place.now) }
{
    match member(value, "cpHashA") {
        Some(bytes) => Ok(Some(digest(alloc, bytes, &place.member("cpHashA"))?)),
        None => Ok(None),
    }
}

/// `expiration`: a number of 32 bits with a sign, without it 0. `WrongKind` or `BadNumber` as
/// `number_of`.
#[tactic(auto, unfolding(crate::specs::Fields::expiration_in))]
pub fn expiration(alloc: Global, value: &Value, place: &PlaceRef<'_>) -> Result<i32, ElementFault>
    ensures { Gives result (expiration_in (view value.now) place.now) }
{
    match member(value, "expiration") {
        Some(number) => Ok(signed_32(alloc, number, &place.member("expiration"))?),
        None => Ok(0),
    }
}

/// `operandB`: at most 64 bytes. `Missing` without it; `WrongKind`, `BadHex` or `BadNumber` as
/// `bytes_of`, `BadHex` for a longer one.
#[tactic(auto, unfolding(crate::specs::Fields::operand_in))]
pub fn operand(alloc: Global, value: &Value, place: &PlaceRef<'_>) -> Result<Blob, ElementFault>
    ensures { Gives result (operand_in (view value.now) place.now) }
{
    let (bytes, place) = needed(alloc, value, "operandB", place)?;
    Ok(bytes_up_to(alloc, bytes, MAX_OPERAND, &place)?)
}

/// `offset`: 0 to 65,535, without it 0. `WrongKind` or `BadNumber` as `number_of`.
#[tactic(auto, unfolding(crate::specs::Fields::offset_in))]
pub fn offset(alloc: Global, value: &Value, place: &PlaceRef<'_>) -> Result<u16, ElementFault>
    ensures { Gives result (offset_in (view value.now) place.now) }
{
    match member(value, "offset") {
        Some(number) => {
            let offset = unsigned(alloc, number, 0, 65535, &place.member("offset"))?;
            Ok(offset as u16)
        }
        None => Ok(0),
    }
}

/// `operation`: a comparison, without it EQ. `WrongKind` for a value that is neither text nor number,
/// `BadNumber` for another text or number.
#[tactic(auto, unfolding(crate::specs::Fields::operation_member_in))]
pub fn operation_member(
    alloc: Global,
    value: &Value,
    place: &PlaceRef<'_>,
) -> Result<Compare, ElementFault>
    ensures { Gives result (operation_member_in (view value.now) place.now) }
{
    match member(value, "operation") {
        Some(word) => operation(alloc, word, &place.member("operation")),
        None => Ok(Compare::Eq),
    }
}
