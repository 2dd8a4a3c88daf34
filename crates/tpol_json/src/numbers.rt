//! Whole numbers.

ghost use Rattle.std.specs.Prelude.{◌≡◌, ◌≤ℤ◌, option_map, IfOk};
ghost use Rattle.std.specs.List.{list_all};
ghost use Rattle.serde_json.specs.View.{view};
ghost use Rattle.tpol_json.specs.Numbers.{after_0x, is_hex_digit, number_in, number_of_digits, number_of_text, whole_number, within};
ghost use Rattle.tpol_json.specs.Reading.{Gives};

use crate::fault::refuse;
use crate::{JsonFault, JsonKind, Place, PlaceRef};
use serde_json::Value;
use std::alloc::Global;

/// Reads a whole number from `least` to `greatest`: a JSON whole number, or a text of `0x` and 1 to
/// 15 hexadecimal digits of any case. `place` is where the value stands, and where a fault stands:
/// `WrongKind` for a value that is neither number nor text, and `BadNumber` for all else that is no
/// such number, as `1.0`, `1e2`, `-0` and what lies outside the limits.
pub fn number_of(
    alloc: Global,
    value: &Value,
    least: i64,
    greatest: i64,
    place: &Place,
) -> Result<i64, JsonFault>
    ensures value { Gives result (number_in least greatest (view value.now) place.now) }
    ensures least { IfOk result (λ n. least ≤ℤ n) }
    ensures greatest { IfOk result (λ n. n ≤ℤ greatest) }
{
    number_at(alloc, value, least, greatest, &PlaceRef::at(place))
}

/// The same at a place that is borrowed.
pub fn number_at(
    alloc: Global,
    value: &Value,
    least: i64,
    greatest: i64,
    place: &PlaceRef<'_>,
) -> Result<i64, JsonFault>
    ensures value { Gives result (number_in least greatest (view value.now) place.now) }
    ensures least { IfOk result (λ n. least ≤ℤ n) }
    ensures greatest { IfOk result (λ n. n ≤ℤ greatest) }
{
    match value {
        Value::Number(_) | Value::String(_) => within(
            alloc,
            whole_number(value),
            least,
            greatest,
            place,
        ),
        _ => refuse(alloc, JsonKind::WrongKind, place),
    }
}

fn within(
    alloc: Global,
    number: Option<i64>,
    least: i64,
    greatest: i64,
    place: &PlaceRef<'_>,
) -> Result<i64, JsonFault>
    ensures value { Gives result (within least greatest number place.now) }
    ensures least { IfOk result (λ n. least ≤ℤ n) }
    ensures greatest { IfOk result (λ n. n ≤ℤ greatest) }
{
    match number {
        Some(number) if least <= number && number <= greatest => Ok(number),
        _ => refuse(alloc, JsonKind::BadNumber, place),
    }
}

/// The whole number of 64 bits with a sign that a JSON number writes, or a text of `0x` and 1 to 15
/// hexadecimal digits; `None` for any other value, 2^63 and greater numbers among them.
pub fn whole_number(value: &Value) -> Option<i64>
    ensures { result ≡ whole_number (view value.now) }
{
    match value {
        Value::Number(number) => number.as_i64(),
        Value::String(text) => number_of_text(text.as_str()),
        _ => None,
    }
}

// The number that a text of `0x` and 1 to 15 hexadecimal digits writes.
fn number_of_text(text: &str) -> Option<i64>
    ensures { result ≡ number_of_text text.now }
{
    number_of_digits(after_0x(text)?)
}

// The number that 1 to 15 hexadecimal digits write.
fn number_of_digits(digits: &str) -> Option<i64>
    ensures { result ≡ number_of_digits digits.now }
{
    let len = digits.len();
    if 1 <= len && len <= 15 && are_hex_digits(digits) {
        i64::from_str_radix(digits, 16).ok()
    } else {
        None
    }
}

// Whether each character is a hexadecimal digit.
fn are_hex_digits(text: &str) -> bool
    ensures { result ≡ list_all is_hex_digit text.now }
{
    text.bytes().all(|c| char::from(c).is_digit(16))
}

/// What follows `0x` at the front of a text.
pub fn after_0x(text: &str) -> Option<&str>
    ensures { option_map (λ rest. rest.now) result ≡ after_0x text.now }
{
    text.strip_prefix("0x")
}
