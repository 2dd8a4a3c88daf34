//! Keys, indices, entities, parents and Names as they are asked for.

ghost use Rattle.std.specs.Prelude.{[]};
ghost use Rattle.serde_json.specs.View.{view, items_view};
ghost use Rattle.tpol_json.specs.Reading.{Gives, cause};
ghost use Rattle.tpol_base.specs.Answers as answers;
ghost use Rattle.tpol_members.specs.Values.{full_name_in, name_in, one_to_three, text_in};
ghost use Rattle.tpol_members.specs.Walks.{Leaves};
ghost use Rattle.tpol_json.specs.Values.{items_of};
ghost use Rattle.tpol_elements.specs.Wishes.{each_from, entity_at, entity_in, index_at, index_in, key_at, key_in, names_at, names_in, parent_at, parent_in};

use crate::publics::{index_public_area, object_public_area};
use serde_json::Value;
use std::alloc::Global;
use tpol_base::{Name, Sequence, Texts};
use tpol_json::{PlaceRef, digest, items, name, refuse, text};
use tpol_members::{ElementFault, PolicyKind, Walk, alone, first_of};
use tpol_tree::{EntityWish, IndexWish, KeyWish, Names, NamesWish, ParentWish};

#[tactic(auto, unfolding(crate::specs::Wishes::key_at))]
fn key_at(
    alloc: Global,
    position: usize,
    value: &Value,
    place: &PlaceRef<'_>,
    walk: &mut Walk,
) -> Result<KeyWish, ElementFault>
    ensures { Leaves result walk.new (key_at walk.old position (view value.now) place.now) }
{
    match position {
        0 => Ok(KeyWish::Path(text(alloc, value, place)?)),
        _ => Ok(KeyWish::Public(object_public_area(alloc, value, place, walk)?)),
    }
}

/// One of `keyPath`, `keyPublic` and a third name for the public area. `Missing` without one, `Twice` at a
/// further one, `WrongKind` for a path that is no text, and else the first fault in the public area.
#[tactic(auto, unfolding(crate::specs::Wishes::key_in))]
pub fn key_wish(
    alloc: Global,
    value: &Value,
    third: &str,
    place: &PlaceRef<'_>,
    walk: &mut Walk,
) -> Result<KeyWish, ElementFault>
    ensures { Leaves result walk.new (key_in third.now (view value.now) place.now walk.old) }
{
    let names = ["keyPath", "keyPublic", third];
    let (position, found, name) = first_of(alloc, value, &names, place)?;
    let wish = key_at(alloc, position, found, &place.member(name), walk)?;
    alone(alloc, value, &names, position, place)?;
    Ok(wish)
}

#[tactic(auto, unfolding(crate::specs::Wishes::index_at))]
fn index_at(
    alloc: Global,
    position: usize,
    value: &Value,
    place: &PlaceRef<'_>,
    walk: &mut Walk,
) -> Result<IndexWish, ElementFault>
    ensures { Leaves result walk.new (index_at walk.old position (view value.now) place.now) }
{
    match position {
        0 => Ok(IndexWish::Path(text(alloc, value, place)?)),
        _ => Ok(IndexWish::Public(index_public_area(alloc, value, place, walk)?)),
    }
}

/// One of `nvPath` and `nvPublic`. `Missing` without one, `Twice` at a further one, `WrongKind` for a path
/// that is no text, and else the first fault in the public area.
#[tactic(auto, unfolding(crate::specs::Wishes::index_in))]
pub fn index_wish(
    alloc: Global,
    value: &Value,
    place: &PlaceRef<'_>,
    walk: &mut Walk,
) -> Result<IndexWish, ElementFault>
    ensures { Leaves result walk.new (index_in (view value.now) place.now walk.old) }
{
    let names = ["nvPath", "nvPublic"];
    let (position, found, name) = first_of(alloc, value, &names, place)?;
    let wish = index_at(alloc, position, found, &place.member(name), walk)?;
    alone(alloc, value, &names, position, place)?;
    Ok(wish)
}

// The bytes of a Name that is not empty; others are `BadHex`. `WrongKind`, `BadHex` or `BadNumber` as
// `bytes_of`.
fn full_name(alloc: Global, value: &Value, place: &PlaceRef<'_>) -> Result<Name, ElementFault>
    ensures { Gives result (full_name_in (view value.now) place.now) }
{
    match name(alloc, value, place)? {
        Name::Empty => refuse(alloc, PolicyKind::BadHex, place),
        name => Ok(name),
    }
}

#[tactic(auto, unfolding(crate::specs::Wishes::entity_at))]
fn entity_at(
    alloc: Global,
    position: usize,
    value: &Value,
    place: &PlaceRef<'_>,
) -> Result<EntityWish, ElementFault>
    ensures { Gives result (entity_at position (view value.now) place.now) }
{
    match position {
        0 => Ok(EntityWish::Path(text(alloc, value, place)?)),
        _ => Ok(EntityWish::Named(full_name(alloc, value, place)?)),
    }
}

/// One of `objectPath` and `objectName`. `Missing` without one, `Twice` at a further one, `WrongKind` for a
/// path that is no text; of a Name `WrongKind`, `BadHex` or `BadNumber` as `bytes_of`, and `BadHex` for an
/// empty one and for bytes that are none.
#[tactic(auto, unfolding(crate::specs::Wishes::entity_in))]
pub fn entity_wish(
    alloc: Global,
    value: &Value,
    place: &PlaceRef<'_>,
) -> Result<EntityWish, ElementFault>
    ensures { Gives result (entity_in (view value.now) place.now) }
{
    let names = ["objectPath", "objectName"];
    let (position, found, name) = first_of(alloc, value, &names, place)?;
    let wish = entity_at(alloc, position, found, &place.member(name))?;
    alone(alloc, value, &names, position, place)?;
    Ok(wish)
}

#[tactic(auto, unfolding(crate::specs::Wishes::parent_at))]
fn parent_at(
    alloc: Global,
    position: usize,
    value: &Value,
    place: &PlaceRef<'_>,
    walk: &mut Walk,
) -> Result<ParentWish, ElementFault>
    ensures { Leaves result walk.new (parent_at walk.old position (view value.now) place.now) }
{
    match position {
        0 => Ok(ParentWish::Path(text(alloc, value, place)?)),
        1 => Ok(ParentWish::Public(object_public_area(alloc, value, place, walk)?)),
        _ => Ok(ParentWish::Named(name(alloc, value, place)?)),
    }
}

/// One of `newParentPath`, `newParentPublic` and `newParentName`. `Missing` without one, `Twice` at a further
/// one, `WrongKind` for a path that is no text; of a Name `WrongKind`, `BadHex` or `BadNumber` as `bytes_of`,
/// and `BadHex` for bytes that are none; else the first fault in the public area.
#[tactic(auto, unfolding(crate::specs::Wishes::parent_in))]
pub fn parent_wish(
    alloc: Global,
    value: &Value,
    place: &PlaceRef<'_>,
    walk: &mut Walk,
) -> Result<ParentWish, ElementFault>
    ensures { Leaves result walk.new (parent_in (view value.now) place.now walk.old) }
{
    let names = ["newParentPath", "newParentPublic", "newParentName"];
    let (position, found, name) = first_of(alloc, value, &names, place)?;
    let wish = parent_at(alloc, position, found, &place.member(name), walk)?;
    alone(alloc, value, &names, position, place)?;
    Ok(wish)
}

fn names_of(alloc: Global, items: &[Value], place: &PlaceRef<'_>) -> Result<Names, ElementFault>
    ensures { Gives result (each_from name_in [] 0 (items_view items.now) place.now) }
{
    let mut names = Sequence::new(alloc);
    for (index, item) in items.iter().enumerate() {
        names.push(name(alloc, item, &(&*place).item(index))?)?;
    }
    Ok(names)
}

fn paths_of(alloc: Global, items: &[Value], place: &PlaceRef<'_>) -> Result<Texts, ElementFault>
    ensures { Gives result (each_from text_in [] 0 (items_view items.now) place.now) }
{
    let mut paths = Sequence::new(alloc);
    for (index, item) in items.iter().enumerate() {
        paths.push(text(alloc, item, &(&*place).item(index))?)?;
    }
    Ok(paths)
}

// The items of a list of 1 to 3.
#[tactic(auto, using(tpol_json::proofs::ItemCounts::counts))]
fn one_to_three<'v>(
    alloc: Global,
    value: &'v Value,
    place: &PlaceRef<'_>,
) -> Result<&'v [Value], ElementFault>
    ensures { answers.Gives items_of cause result (one_to_three (view value.now) place.now) }
{
    let items = items(alloc, value, place)?;
    if 1 <= items.len() && items.len() <= 3 {
        Ok(items)
    } else {
        refuse(alloc, PolicyKind::BadNumber, place)
    }
}

#[tactic(auto, unfolding(crate::specs::Wishes::names_at))]
fn names_at(
    alloc: Global,
    position: usize,
    value: &Value,
    place: &PlaceRef<'_>,
) -> Result<NamesWish, ElementFault>
    ensures { Gives result (names_at position (view value.now) place.now) }
{
    match position {
        0 => Ok(NamesWish::Digest(digest(alloc, value, place)?)),
        1 => {
            let items = one_to_three(alloc, value, place)?;
            Ok(NamesWish::Names(names_of(alloc, items, place)?))
        }
        _ => {
            let items = one_to_three(alloc, value, place)?;
            Ok(NamesWish::Paths(paths_of(alloc, items, place)?))
        }
    }
}

/// One of `nameHash`, `objectNames` and `namePaths`. `Missing` without one, `Twice` at a further one; of a
/// list `WrongKind`, and `BadNumber` where it has not 1 to 3 items; `WrongKind` at a path that is no text; of
/// bytes `WrongKind`, `BadHex` or `BadNumber` as `bytes_of`, and `BadHex` where they are no digest or no Name.
#[tactic(auto, unfolding(crate::specs::Wishes::names_in))]
pub fn names_wish(
    alloc: Global,
    value: &Value,
    place: &PlaceRef<'_>,
) -> Result<NamesWish, ElementFault>
    ensures { Gives result (names_in (view value.now) place.now) }
{
    let names = ["nameHash", "objectNames", "namePaths"];
    let (position, found, name) = first_of(alloc, value, &names, place)?;
    let wish = names_at(alloc, position, found, &place.member(name))?;
    alone(alloc, value, &names, position, place)?;
    Ok(wish)
}
