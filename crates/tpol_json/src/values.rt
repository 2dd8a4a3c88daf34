//! The values of members: texts, truth values, numbers, bytes of certain lengths, digests and Names.

ghost use Rattle.std.specs.Prelude.{◌^◌, ◌≤◌, ◌<◌, IfOk};
ghost use Rattle.serde_json.specs.View.{view};
ghost use Rattle.tpol_json.specs.Reading.{Gives};
ghost use Rattle.tpol_json.specs.Values.{any_bytes, bytes_up_to, digest_in, empty_or_32, name_in, object_in, signed_in, text_in, truth_in, u32_in, unsigned_in};

use crate::bytes::bytes_at;
use crate::fault::refuse;
use crate::numbers::number_at;
use crate::truth_values::{text_at, truth_at};
use crate::{MemberFault, MemberKind, PlaceRef};
use serde_json::Value;
use std::alloc::Global;
use tpol_base::{Blob, Digest32, Name, Text};

/// An object is wanted here; another value is `WrongKind`.
pub fn check_object(alloc: Global, value: &Value, place: &PlaceRef<'_>) -> Result<(), MemberFault>
    ensures { Gives result (object_in (view value.now) place.now) }
{
    match value {
        Value::Object(_) => Ok(()),
        _ => refuse(alloc, MemberKind::WrongKind, place),
    }
}

/// A text; a value of another kind is `WrongKind`.
pub fn text(alloc: Global, value: &Value, place: &PlaceRef<'_>) -> Result<Text, MemberFault>
    ensures { Gives result (text_in (view value.now) place.now) }
{
    Ok(text_at(alloc, value, place)?)
}

/// A truth value: the JSON words `true` and `false`, the texts `true`, `false`, `YES` and `NO` in any case, and the
/// numbers 1 and 0, each also as a text of `0x` and hexadecimal digits, as `number_of` reads it. `WrongKind` for
/// `null`, a list and an object, and `BadNumber` for any other text or number.
pub fn truth(alloc: Global, value: &Value, place: &PlaceRef<'_>) -> Result<bool, MemberFault>
    ensures { Gives result (truth_in (view value.now) place.now) }
{
    Ok(truth_at(alloc, value, place)?)
}

/// A whole number from `least` to `greatest`. `WrongKind` or `BadNumber` as `number_of`.
pub fn unsigned(
    alloc: Global,
    value: &Value,
    least: u64,
    greatest: u64,
    place: &PlaceRef<'_>,
) -> Result<u64, MemberFault>
    requires low { least < 2 ^ 63 }
    requires high { greatest < 2 ^ 63 }
    ensures value { Gives result (unsigned_in least greatest (view value.now) place.now) }
    ensures greatest { IfOk result (λ n. n ≤ greatest) }
{
    Ok(number_at(alloc, value, least as i64, greatest as i64, place)? as u64)
}

/// A number of 32 bits. `WrongKind` or `BadNumber` as `number_of`.
pub fn unsigned_32(alloc: Global, value: &Value, place: &PlaceRef<'_>) -> Result<u32, MemberFault>
    ensures { Gives result (u32_in (view value.now) place.now) }
{
    Ok(unsigned(alloc, value, 0, u32::MAX as u64, place)? as u32)
}

/// A number of 32 bits with a sign. `WrongKind` or `BadNumber` as `number_of`.
pub fn signed_32(alloc: Global, value: &Value, place: &PlaceRef<'_>) -> Result<i32, MemberFault>
    ensures { Gives result (signed_in (view value.now) place.now) }
{
    let number = number_at(
        alloc,
        value,
        i64::from(i32::MIN),
        i64::from(i32::MAX),
        place,
    )?;
    Ok(number as i32)
}

/// Bytes of any number. `WrongKind`, `BadHex` or `BadNumber` as `bytes_of`.
pub fn any_bytes(alloc: Global, value: &Value, place: &PlaceRef<'_>) -> Result<Blob, MemberFault>
    ensures { Gives result (any_bytes (view value.now) place.now) }
{
    Ok(bytes_at(alloc, value, place)?)
}

/// At most `limit` bytes; more are `BadHex`. `WrongKind`, `BadHex` or `BadNumber` as `bytes_of`.
pub fn bytes_up_to(
    alloc: Global,
    value: &Value,
    limit: usize,
    place: &PlaceRef<'_>,
) -> Result<Blob, MemberFault>
    ensures { Gives result (bytes_up_to limit (view value.now) place.now) }
{
    let bytes = any_bytes(alloc, value, place)?;
    if bytes.len() <= limit {
        Ok(bytes)
    } else {
        refuse(alloc, MemberKind::BadHex, place)
    }
}

/// No byte, or 32; others are `BadHex`. `WrongKind`, `BadHex` or `BadNumber` as `bytes_of`.
pub fn empty_or_32(alloc: Global, value: &Value, place: &PlaceRef<'_>) -> Result<Blob, MemberFault>
    ensures { Gives result (empty_or_32 (view value.now) place.now) }
{
    let bytes = any_bytes(alloc, value, place)?;
    if bytes.len() == 0 || bytes.len() == 32 {
        Ok(bytes)
    } else {
        refuse(alloc, MemberKind::BadHex, place)
    }
}

/// 32 bytes; others are `BadHex`. `WrongKind`, `BadHex` or `BadNumber` as `bytes_of`.
pub fn digest(alloc: Global, value: &Value, place: &PlaceRef<'_>) -> Result<Digest32, MemberFault>
    ensures { Gives result (digest_in (view value.now) place.now) }
{
    let bytes = any_bytes(alloc, value, place)?;
    if bytes.len() == 32 {
        Ok(Digest32::from_slice(bytes.as_slice()))
    } else {
        refuse(alloc, MemberKind::BadHex, place)
    }
}

/// The bytes of a Name; others are `BadHex`. `WrongKind`, `BadHex` or `BadNumber` as `bytes_of`.
pub fn name(alloc: Global, value: &Value, place: &PlaceRef<'_>) -> Result<Name, MemberFault>
    ensures { Gives result (name_in (view value.now) place.now) }
{
    let bytes = any_bytes(alloc, value, place)?;
    match Name::from_bytes(bytes.as_slice()) {
        Some(name) => Ok(name),
        None => refuse(alloc, MemberKind::BadHex, place),
    }
}
