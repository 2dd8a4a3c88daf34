//! Comparisons and commands, by their names or their numbers.

ghost use Rattle.serde_json.specs.View.{view};
ghost use Rattle.tpol_json.specs.Reading.{Gives};
ghost use Rattle.tpol_members.specs.Operations.{code_in, operation_in, operation_number_in};

use crate::{ElementFault, PolicyKind};
use serde_json::Value;
use std::alloc::Global;
use tpol_base::{Compare, command_codes};
use tpol_json::{PlaceRef, refuse, unsigned, unsigned_32, word_in};

/// A comparison, by its name or its number. `WrongKind` for a value that is neither text nor number,
/// `BadNumber` for another text or number.
pub fn operation(
    alloc: Global,
    value: &Value,
    place: &PlaceRef<'_>,
) -> Result<Compare, ElementFault>
    ensures { Gives result (operation_in (view value.now) place.now) }
{
    match word_in(value, "TPM2_EO_", Compare::names()) {
        Some(operation) => Ok(operation),
        None => operation_number(alloc, value, place),
    }
}

fn operation_number(
    alloc: Global,
    value: &Value,
    place: &PlaceRef<'_>,
) -> Result<Compare, ElementFault>
    ensures { Gives result (operation_number_in (view value.now) place.now) }
{
    let number = unsigned(alloc, value, 0, 65535, place)? as u16;
    match Compare::from_number(number) {
        Some(operation) => Ok(operation),
        None => refuse(alloc, PolicyKind::BadNumber, place),
    }
}

/// A command, by its name or its code. `WrongKind` for a value that is neither text nor number, `BadNumber` for another
/// text, and for a number that is not whole, is below zero or has more than 32 bits.
pub fn code(alloc: Global, value: &Value, place: &PlaceRef<'_>) -> Result<u32, ElementFault>
    ensures { Gives result (code_in (view value.now) place.now) }
{
    match word_in(value, "TPM2_CC_", command_codes()) {
        Some(code) => Ok(code),
        None => Ok(unsigned_32(alloc, value, place)?),
    }
}
