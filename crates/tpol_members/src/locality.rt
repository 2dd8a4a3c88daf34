//! Localities as sets, bit n for locality n.

ghost use Rattle.serde_json.specs.View.{view, items_view};
ghost use Rattle.tpol_json.specs.Reading.{Gives};
ghost use Rattle.tpol_members.specs.Localities.{locality_in, locality_list, locality_word_in};

use crate::words::only_word;
use crate::{ElementFault, PolicyKind};
use serde_json::Value;
use std::alloc::Global;
use tpol_json::{PlaceRef, refuse, unsigned};

/// A set of localities, bit n for locality n: a number from 1 to 31, or a list of at least one name.
/// `WrongKind` for a value that is neither list, text nor number, and for an item that is no text;
/// `BadNumber` for an empty list, at a name that is not known, and for another number or text.
pub fn localities(alloc: Global, value: &Value, place: &PlaceRef<'_>) -> Result<u8, ElementFault>
    ensures { Gives result (locality_in (view value.now) place.now) }
{
    match value.as_array() {
        Some(names) => locality_list(alloc, names.as_slice(), place),
        None => Ok(unsigned(alloc, value, 1, 31, place)? as u8),
    }
}

fn locality_list(alloc: Global, names: &[Value], place: &PlaceRef<'_>) -> Result<u8, ElementFault>
    ensures { Gives result (locality_list (items_view names.now) place.now) }
{
    if names.is_empty() {
        return refuse(alloc, PolicyKind::BadNumber, place);
    }
    let mut set = 0;
    for (index, name) in names.iter().enumerate() {
        set |= locality_word(alloc, name, &(&*place).item(index))?;
    }
    Ok(set)
}

fn locality_word(alloc: Global, value: &Value, place: &PlaceRef<'_>) -> Result<u8, ElementFault>
    ensures { Gives result (locality_word_in (view value.now) place.now) }
{
    only_word(
        alloc,
        value,
        "TPM2_LOC_",
        &[
            ("ZERO", 1),
            ("ONE", 2),
            ("TWO", 4),
            ("THREE", 8),
            ("FOUR", 16),
        ],
        PolicyKind::BadNumber,
        place,
    )
}
