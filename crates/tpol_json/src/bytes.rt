//! Bytes, as hexadecimal texts or as lists of numbers.

ghost use Rattle.serde_json.specs.View.{view, items_view};
ghost use Rattle.tpol_json.specs.Bytes.{byte_in, bytes_from, bytes_in, bytes_of_text, hex_or_bad};
ghost use Rattle.tpol_json.specs.Places.{at_item};
ghost use Rattle.tpol_json.specs.Reading.{Gives};

use crate::fault::refuse;
use crate::numbers::{after_0x, whole_number};
use crate::{JsonFault, JsonKind, Place, PlaceRef};
use hex::FromHexError;
use serde_json::Value;
use std::alloc::Global;
use tpol_base::Blob;

/// Reads bytes: a text of an even number of hexadecimal digits of any case, with or without `0x` in front, or a list of
/// whole numbers from 0 to 255, each a JSON number or a text as of `number_of`. `place` is where the value stands.
/// `WrongKind` stands there for a value that is neither text nor list, `BadHex` for any other text, and `BadNumber`
/// stands at the first item, of whatever kind, that is no such number.
pub fn bytes_of(alloc: Global, value: &Value, place: &Place) -> Result<Blob, JsonFault>
    ensures { Gives result (bytes_in (view value.now) place.now) }
{
    bytes_at(alloc, value, &PlaceRef::at(place))
}

/// The same at a place that is borrowed.
pub fn bytes_at(alloc: Global, value: &Value, place: &PlaceRef<'_>) -> Result<Blob, JsonFault>
    ensures { Gives result (bytes_in (view value.now) place.now) }
{
    match value {
        Value::String(text) => bytes_of_text(alloc, text.as_str(), place),
        Value::Array(items) => bytes_of_items(alloc, items.as_slice(), place),
        _ => refuse(alloc, JsonKind::WrongKind, place),
    }
}

fn bytes_of_text(alloc: Global, text: &str, place: &PlaceRef<'_>) -> Result<Blob, JsonFault>
    ensures { Gives result (hex_or_bad (bytes_of_text text.now) place.now) }
{
    match hex::decode(alloc, after_0x(text).unwrap_or(text)) {
        Ok(bytes) => Ok(Blob::from_vec(bytes)),
        Err(FromHexError::OutOfMemory) => Err(JsonFault::NoMemory),
        Err(_) => refuse(alloc, JsonKind::BadHex, place),
    }
}

fn bytes_of_items(alloc: Global, items: &[Value], place: &PlaceRef<'_>) -> Result<Blob, JsonFault>
    ensures { Gives result (bytes_from 0 (items_view items.now) place.now) }
{
    let mut bytes = Blob::new(alloc);
    for (index, item) in items.iter().enumerate() {
        let byte = byte_of_item(alloc, item, index, place)?;
        bytes.push(byte)?;
    }
    Ok(bytes)
}

// The byte that the item at this position of the list at the place writes.
fn byte_of_item(
    alloc: Global,
    item: &Value,
    index: usize,
    place: &PlaceRef<'_>,
) -> Result<u8, JsonFault>
    ensures { Gives result (byte_in (view item.now) (at_item place.now index)) }
{
    match whole_number(item) {
        Some(number) if 0 <= number && number <= 255 => Ok(number as u8),
        _ => refuse(alloc, JsonKind::BadNumber, &place.item(index)),
    }
}
