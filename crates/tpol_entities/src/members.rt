//! Members that may be left out, and authorization values.

ghost use Rattle.std.specs.Prelude.{◌≡◌, []};
ghost use Rattle.serde_json.specs.View.{view};
ghost use Rattle.tpol_base.specs.Digest.{zero_digest};
ghost use Rattle.tpol_json.specs.Reading.{Gives};
ghost use Rattle.tpol_json.specs.Members.{optional};
ghost use Rattle.tpol_entities.specs.Members.{needed};
ghost use Rattle.tpol_entities.specs.Values.{auth_in, bytes_up_to, truth_in, u32_in};

use crate::fault::PartFault;
use serde_json::Value;
use std::alloc::Global;
use tpol_base::{Blob, Digest32, without_trailing_zeros};
use tpol_json::{PlaceRef, bytes_up_to, member, needed, truth, unsigned_32};

/// The most bytes of an authorization value.
const MAX_AUTH: usize = 32;

/// The member of this name as an authorization value: at most 32 bytes, without the zero bytes at their end. Without
/// the member it is the empty one. More bytes are `BadHex`; `WrongKind`, `BadHex` and `BadNumber` come as of
/// `tpol_json::bytes_of`.
pub fn optional_auth(
    alloc: Global,
    value: &Value,
    name: &str,
    place: &PlaceRef<'_>,
) -> Result<Blob, PartFault>
    ensures { Gives result (optional auth_in [] name.now (view value.now) place.now) }
{
    match member(value, name) {
        Some(auth) => auth_of(alloc, auth, &place.member(name)),
        None => Ok(Blob::new(alloc)),
    }
}

/// The member of this name as a number of 32 bits. `Missing` stands at its place where it is left out; `WrongKind` and
/// `BadNumber` come as of `tpol_json::number_of`.
pub fn needed_u32(
    alloc: Global,
    value: &Value,
    name: &str,
    place: &PlaceRef<'_>,
) -> Result<u32, PartFault>
    ensures { Gives result (needed u32_in name.now (view value.now) place.now) }
{
    let (number, place) = needed(alloc, value, name, place)?;
    unsigned_32(alloc, number, &place).map_err(PartFault::from)
}

/// The member of this name as at most `limit` bytes. `Missing` stands at its place where it is left out; more bytes are
/// `BadHex`; `WrongKind`, `BadHex` and `BadNumber` come as of `tpol_json::bytes_of`.
pub fn needed_bytes(
    alloc: Global,
    value: &Value,
    name: &str,
    limit: usize,
    place: &PlaceRef<'_>,
) -> Result<Blob, PartFault>
    ensures { Gives result (needed (bytes_up_to limit) name.now (view value.now) place.now) }
{
    let (bytes, place) = needed(alloc, value, name, place)?;
    bytes_up_to(alloc, bytes, limit, &place).map_err(PartFault::from)
}

/// The member of this name as a number of 32 bits, without it the default. `WrongKind` and `BadNumber` come as of
/// `tpol_json::number_of`.
pub fn optional_u32(
    alloc: Global,
    value: &Value,
    name: &str,
    default: u32,
    place: &PlaceRef<'_>,
) -> Result<u32, PartFault>
    ensures { Gives result (optional u32_in default name.now (view value.now) place.now) }
{
    match member(value, name) {
        Some(number) => { unsigned_32(alloc, number, &place.member(name)).map_err(PartFault::from) }
        None => Ok(default),
    }
}

/// The member of this name as a truth value, without it the default. `WrongKind` and `BadNumber` come as of
/// `tpol_json::truth`.
pub fn optional_truth(
    alloc: Global,
    value: &Value,
    name: &str,
    default: bool,
    place: &PlaceRef<'_>,
) -> Result<bool, PartFault>
    ensures { Gives result (optional truth_in default name.now (view value.now) place.now) }
{
    match member(value, name) {
        Some(flag) => truth(alloc, flag, &place.member(name)).map_err(PartFault::from),
        None => Ok(default),
    }
}

// An authorization value: at most 32 bytes, without the zero bytes at their end.
fn auth_of(alloc: Global, value: &Value, place: &PlaceRef<'_>) -> Result<Blob, PartFault>
    ensures { Gives result (auth_in (view value.now) place.now) }
{
    let bytes = bytes_up_to(alloc, value, MAX_AUTH, place)?;
    Blob::from_slice(alloc, without_trailing_zeros(bytes.as_slice())).map_err(PartFault::from)
}

/// 32 zero bytes.
pub fn zero_digest() -> Digest32
    ensures { result ≡ zero_digest }
{
    Digest32::ZERO
}
