//! Lists whose items are read in order, each beside what the items before it gave.

ghost use Rattle.std.specs.Prelude.{◌≡◌, ◌==◌};
ghost use Rattle.std.specs.List.{list_any};
ghost use Rattle.serde_json.specs.View.{view, items_view};
ghost use Rattle.tpol_json.specs.Members.{items_from, optional};
ghost use Rattle.tpol_json.specs.Reading.{Gives};
ghost use Rattle.tpol_entities.specs.Lists.{list_in};

use crate::fault::PartFault;
use serde_json::Value;
use std::alloc::Global;
use tpol_json::{PlaceRef, items, member};

/// Reads the items of a list into a `T`.
pub trait ItemReader<T> {
    ghost use Rattle.serde_json.specs.View.{view};
    ghost use Rattle.tpol_entities.specs.Faults.{Leaves};
    ghost use Rattle.tpol_entities.specs.Lists.{ItemReading};

    /// How an item is read.
    ghost reading: { Self → ItemReading T };

    /// Reads the item that stands at this position, counted from 0, beside what the items before it gave: `so_far`,
    /// which then has what this one gives too. The fault of the item is told as `reading` says it.
    fn read_item(
        &self,
        alloc: Global,
        so_far: &mut T,
        index: usize,
        item: &Value,
        place: &PlaceRef<'_>,
    ) -> Result<(), PartFault>
        ensures { Leaves result so_far.new
            (reading self.now so_far.old index (view item.now) place.now) };
}

/// The member of this name as a list, read into what there is at the start. Without the member that is all. A value
/// of another kind is `WrongKind` at its place; else the fault of the first item that has one is told.
pub fn optional_list<T: Drop, R: ItemReader<T>>(
    alloc: Global,
    reader: &R,
    start: T,
    value: &Value,
    name: &str,
    place: &PlaceRef<'_>,
) -> Result<T, PartFault>
    ensures { Gives result
        (optional (list_in (R.reading reader.now) start) start name.now
        (view value.now) place.now) }
{
    match member(value, name) {
        Some(list) => list_of(alloc, reader, start, list, &place.member(name)),
        None => Ok(start),
    }
}

fn list_of<T: Drop, R: ItemReader<T>>(
    alloc: Global,
    reader: &R,
    start: T,
    value: &Value,
    place: &PlaceRef<'_>,
) -> Result<T, PartFault>
    ensures { Gives result (list_in (R.reading reader.now) start (view value.now) place.now) }
{
    let items = items(alloc, value, place)?;
    list_of_items(alloc, reader, start, items, place)
}

fn list_of_items<T: Drop, R: ItemReader<T>>(
    alloc: Global,
    reader: &R,
    start: T,
    items: &[Value],
    place: &PlaceRef<'_>,
) -> Result<T, PartFault>
    ensures { Gives result (items_from (R.reading reader.now) start 0
        (items_view items.now) place.now) }
{
    let mut read = start;
    for (index, item) in items.iter().enumerate() {
        reader.read_item(alloc, &mut read, index, item, &(&*place).item(index))?;
    }
    Ok(read)
}

/// Whether one of the entries has this number.
pub fn has_number<T>(entries: &[(u32, T)], number: u32) -> bool
    ensures { result ≡ list_any (λ entry. entry.0 == number) entries.now }
{
    entries.iter().any(|entry| entry.0 == number)
}
