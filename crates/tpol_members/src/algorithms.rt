//! Algorithms of public areas: hashes, types of keys and schemes (TPM 2.0 Part 2, TPM_ALG_ID).

ghost use Rattle.std.specs.Prelude.{◌≡◌};
ghost use Rattle.serde_json.specs.View.{view};
ghost use Rattle.tpol_members.specs.Algorithms.{answer_instead, hash_in, hash_number_in, key_type_in, key_algorithm_in, scheme_in};
ghost use Rattle.tpol_json.specs.Reading.{Gives};
ghost use Rattle.tpol_members.specs.Values.{unsigned_in};

use crate::words::only_word;
use crate::{ElementFault, PolicyKind};
use serde_json::Value;
use std::alloc::Global;
use tpol_json::{PlaceRef, refuse, unsigned, word_in};

/// SHA-256, by its name or its number; another text or number is `OtherHash`, a value of another kind
/// `WrongKind`.
pub fn check_hash(alloc: Global, value: &Value, place: &PlaceRef<'_>) -> Result<(), ElementFault>
    ensures { Gives result (hash_in (view value.now) place.now) }
{
    match word_in(value, "TPM2_ALG_", &[("SHA256", ())]) {
        Some(()) => Ok(()),
        None => instead(
            check_hash_number(alloc, value, place),
            PolicyKind::OtherHash,
        ),
    }
}

// The number of SHA-256 (TPM 2.0 Part 2, TPM_ALG_ID).
fn check_hash_number(alloc: Global, value: &Value, place: &PlaceRef<'_>) -> Result<(), ElementFault>
    ensures { Gives result (hash_number_in (view value.now) place.now) }
{
    unsigned(alloc, value, 11, 11, place)?;
    Ok(())
}

// What was read, with this kind in the place of `BadNumber`.
fn instead<T>(found: Result<T, ElementFault>, kind: PolicyKind) -> Result<T, ElementFault>
    ensures { result ≡ answer_instead kind found }
{
    match found {
        Ok(found) => Ok(found),
        Err(
            ElementFault::Bad {
                kind: PolicyKind::BadNumber,
                place,
            },
        ) => Err(ElementFault::Bad { kind, place }),
        Err(fault) => Err(fault),
    }
}

/// The type of a keyed-hash object, by its name or its number. RSA and ECC are `AsymmetricKey`, other texts
/// and numbers `UnknownType`, and a value of another kind is `WrongKind`.
pub fn check_key_type(
    alloc: Global,
    value: &Value,
    place: &PlaceRef<'_>,
) -> Result<(), ElementFault>
    ensures { Gives result (key_type_in (view value.now) place.now) }
{
    match key_algorithm(alloc, value, place)? {
        8 => Ok(()),
        1 | 35 => refuse(alloc, PolicyKind::AsymmetricKey, place),
        _ => refuse(alloc, PolicyKind::UnknownType, place),
    }
}

fn number_of_type(alloc: Global, value: &Value, place: &PlaceRef<'_>) -> Result<u32, ElementFault>
    ensures { Gives result (unsigned_in 0 65535 (view value.now) place.now) }
{
    Ok(unsigned(alloc, value, 0, 65535, place)? as u32)
}

fn key_algorithm(alloc: Global, value: &Value, place: &PlaceRef<'_>) -> Result<u32, ElementFault>
    ensures { Gives result (key_algorithm_in (view value.now) place.now) }
{
    match word_in(
        value,
        "TPM2_ALG_",
        &[("KEYEDHASH", 8), ("RSA", 1), ("ECC", 35)],
    ) {
        Some(algorithm) => Ok(algorithm),
        None => instead(number_of_type(alloc, value, place), PolicyKind::UnknownType),
    }
}

/// Whether the scheme of a keyed hash is HMAC; else it is NULL. `BadNumber` for another text, `WrongKind`
/// for a value of another kind.
pub fn scheme(alloc: Global, value: &Value, place: &PlaceRef<'_>) -> Result<bool, ElementFault>
    ensures { Gives result (scheme_in (view value.now) place.now) }
{
    only_word(
        alloc,
        value,
        "TPM2_ALG_",
        &[("HMAC", true), ("NULL", false)],
        PolicyKind::BadNumber,
        place,
    )
}
