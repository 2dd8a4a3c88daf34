//! The numbers of attributes and of localities that FAPI writes as objects of zeros and ones.

ghost use Rattle.std.specs.Prelude.{◌≡◌, map, option_and_then};
ghost use Rattle.serde_json.specs.Find.{as_str};
ghost use Rattle.serde_json.specs.View.{members_view, view};
ghost use Rattle.tpol_adopt.specs.Flags.{bits_from, bits_of_extended, bits_of_flag, bits_of_member, bits_of_row, count_in, index_flags, index_types, locality_flags, object_flags};
ghost use Rattle.tpol_adopt.specs.Words.{meaning_of_word};

use crate::words::meaning_of_word;
use serde_json::{Map, Value};

/// What a number's bits are.
#[derive(Clone, Copy)]
pub enum Flags {
    /// The attributes of an index (TPM 2.0 Part 2, TPMA_NV).
    OfIndex,
    /// The attributes of an object (TPM 2.0 Part 2, TPMA_OBJECT).
    OfObject,
    /// Localities (TPM 2.0 Part 2, TPMA_LOCALITY).
    OfLocality,
}

/// The attributes of an index by their names (TPM 2.0 Part 2, TPMA_NV), each with its bit.
pub fn index_flags() -> &'static [(&'static str, u32)]
    ensures { map (λ word. (word.0.now, word.1)) result.now ≡ index_flags }
{
    &[
        ("PPWRITE", 1 << 0),
        ("OWNERWRITE", 1 << 1),
        ("AUTHWRITE", 1 << 2),
        ("POLICYWRITE", 1 << 3),
        ("POLICY_DELETE", 1 << 10),
        ("WRITELOCKED", 1 << 11),
        ("WRITEALL", 1 << 12),
        ("WRITEDEFINE", 1 << 13),
        ("WRITE_STCLEAR", 1 << 14),
        ("GLOBALLOCK", 1 << 15),
        ("PPREAD", 1 << 16),
        ("OWNERREAD", 1 << 17),
        ("AUTHREAD", 1 << 18),
        ("POLICYREAD", 1 << 19),
        ("NO_DA", 1 << 25),
        ("ORDERLY", 1 << 26),
        ("CLEAR_STCLEAR", 1 << 27),
        ("READLOCKED", 1 << 28),
        ("WRITTEN", 1 << 29),
        ("PLATFORMCREATE", 1 << 30),
        ("READ_STCLEAR", 1 << 31),
    ]
}

/// The types of an index by their names (TPM 2.0 Part 2, TPM_NT), in bits 4 to 7.
pub fn index_types() -> &'static [(&'static str, u32)]
    ensures { map (λ word. (word.0.now, word.1)) result.now ≡ index_types }
{
    &[
        ("ORDINARY", 0 << 4),
        ("COUNTER", 1 << 4),
        ("BITS", 2 << 4),
        ("EXTEND", 4 << 4),
        ("PIN_FAIL", 8 << 4),
        ("PIN_PASS", 9 << 4),
    ]
}

/// The attributes of an object by their names (TPM 2.0 Part 2, TPMA_OBJECT), each with its bit.
pub fn object_flags() -> &'static [(&'static str, u32)]
    ensures { map (λ word. (word.0.now, word.1)) result.now ≡ object_flags }
{
    &[
        ("fixedTPM", 1 << 1),
        ("stClear", 1 << 2),
        ("fixedParent", 1 << 4),
        ("sensitiveDataOrigin", 1 << 5),
        ("userWithAuth", 1 << 6),
        ("adminWithPolicy", 1 << 7),
        ("noDA", 1 << 10),
        ("encryptedDuplication", 1 << 11),
        ("restricted", 1 << 16),
        ("decrypt", 1 << 17),
        ("sign", 1 << 18),
    ]
}

/// The localities 0 to 4 by their names (TPM 2.0 Part 2, TPMA_LOCALITY), each with its bit.
pub fn locality_flags() -> &'static [(&'static str, u32)]
    ensures { map (λ word. (word.0.now, word.1)) result.now ≡ locality_flags }
{
    &[
        ("ZERO", 1 << 0),
        ("ONE", 1 << 1),
        ("TWO", 1 << 2),
        ("THREE", 1 << 3),
        ("FOUR", 1 << 4),
    ]
}

// A whole number that is not negative.
fn count_of(value: &Value) -> Option<u64>
    ensures { result ≡ count_in (view value.now) }
{
    value.as_u64()
}

// 0 sets no bit, and 1 the flag's.
fn bits_of_flag(flag: u32, count: Option<u64>) -> Option<u32>
    ensures { result ≡ bits_of_flag flag count }
{
    match count {
        Some(0) => Some(0),
        Some(1) => Some(flag),
        _ => None,
    }
}

// One of these flags.
fn bits_of_row(flags: &[(&str, u32)], name: &str, value: &Value) -> Option<u32>
    ensures { result
        ≡ bits_of_row (map (λ word. (word.0.now, word.1)) flags.now) name.now (view value.now) }
{
    bits_of_flag(meaning_of_word(flags, name)?, count_of(value))
}

// What `Extended` says, 0 to 7, in bits 5 to 7 (TPM 2.0 Part 2, TPMA_LOCALITY).
fn bits_of_extended(count: Option<u64>) -> Option<u32>
    ensures { result ≡ bits_of_extended count }
{
    match count {
        Some(count) if count <= 7 => Some(count as u32 * 32),
        _ => None,
    }
}

// The type of an index, in bits 4 to 7.
fn bits_of_type(value: &Value) -> Option<u32>
    ensures { result ≡ option_and_then (meaning_of_word index_types) (as_str (view value.now)) }
{
    meaning_of_word(index_types(), value.as_str()?)
}

// The bits that a member sets; None where it is unknown, or says anything else.
#[tactic(auto, unfolding(crate::specs::Flags::bits_of_member))]
fn bits_of_member(flags: Flags, name: &str, value: &Value) -> Option<u32>
    ensures { result ≡ bits_of_member flags name.now (view value.now) }
{
    match flags {
        Flags::OfIndex if name == "TPM2_NT" => bits_of_type(value),
        Flags::OfIndex => bits_of_row(index_flags(), name, value),
        Flags::OfObject => bits_of_row(object_flags(), name, value),
        Flags::OfLocality if name == "Extended" => bits_of_extended(count_of(value)),
        Flags::OfLocality => bits_of_row(locality_flags(), name, value),
    }
}

/// The bits that the members of an object set together; None where one of them is unknown, or its value is none that
/// it may have.
#[tactic(auto, unfolding(crate::specs::Flags::bits_from))]
pub fn bits_of(flags: Flags, members: &Map<String, Value>) -> Option<u32>
    ensures { result ≡ bits_from flags 0 (members_view members.now.entries) }
{
    let mut bits = 0;
    for (name, value) in members.iter() {
        bits |= bits_of_member(flags, name.as_str(), value)?;
    }
    Some(bits)
}
