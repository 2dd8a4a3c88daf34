//! Truth values and texts.

ghost use Rattle.std.specs.Prelude.{◌≡◌};
ghost use Rattle.serde_json.specs.View.{view};
ghost use Rattle.tpol_json.specs.Reading.{Gives};
ghost use Rattle.tpol_json.specs.Truth.{text_in, truth_in, truth_of_number, truth_of_word};

use crate::fault::refuse;
use crate::numbers::whole_number;
use crate::{JsonFault, JsonKind, PlaceRef};
use serde_json::Value;
use std::alloc::Global;
use tpol_base::Text;

/// Reads a truth value: the JSON words `true` and `false`, the texts `true`, `false`, `YES` and `NO` in any case, and
/// the numbers 1 and 0, each also as a text of `0x` and hexadecimal digits, as `number_of` reads it. `place` is where
/// the value stands, and where a fault stands: `WrongKind` for `null`, a list and an object, and `BadNumber` for any
/// other text or number.
pub fn truth_at(alloc: Global, value: &Value, place: &PlaceRef<'_>) -> Result<bool, JsonFault>
    ensures { Gives result (truth_in (view value.now) place.now) }
{
    match value {
        Value::Bool(truth) => Ok(*truth),
        Value::Number(_) => truth_of_number(alloc, whole_number(value), place),
        Value::String(text) => match truth_of_word(text.as_str()) {
            Some(truth) => Ok(truth),
            None => truth_of_number(alloc, whole_number(value), place),
        },
        _ => refuse(alloc, JsonKind::WrongKind, place),
    }
}

fn truth_of_word(text: &str) -> Option<bool>
    ensures { result ≡ truth_of_word text.now }
{
    if text.eq_ignore_ascii_case("true") || text.eq_ignore_ascii_case("YES") {
        Some(true)
    } else if text.eq_ignore_ascii_case("false") || text.eq_ignore_ascii_case("NO") {
        Some(false)
    } else {
        None
    }
}

fn truth_of_number(
    alloc: Global,
    number: Option<i64>,
    place: &PlaceRef<'_>,
) -> Result<bool, JsonFault>
    ensures { Gives result (truth_of_number number place.now) }
{
    match number {
        Some(1) => Ok(true),
        Some(0) => Ok(false),
        _ => refuse(alloc, JsonKind::BadNumber, place),
    }
}

/// Reads a text. `WrongKind` stands at `place` for a value of any other kind.
pub fn text_at(alloc: Global, value: &Value, place: &PlaceRef<'_>) -> Result<Text, JsonFault>
    ensures { Gives result (text_in (view value.now) place.now) }
{
    match value {
        Value::String(text) => Ok(Text::from_str(alloc, text.as_str())?),
        _ => refuse(alloc, JsonKind::WrongKind, place),
    }
}
