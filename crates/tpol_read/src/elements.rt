//! Elements, ORs and lists of elements, read in order. `levels` is how many ORs may still stand inside one
//! another.

ghost use Rattle.std.specs.Prelude.{◌≡◌};
ghost use Rattle.serde_json.specs.View.{view, items_view};
ghost use Rattle.tpol_read.specs.Elements.{element_at, elements_from, elements_in, policy_member, counted, branch_in, branches_from, branches_in, or_at, is_branch_count, leaf_element};
ghost use Rattle.tpol_members.specs.Walks.{LeavesAs};
ghost use Rattle.tpol_json.specs.Members.{items_count};
ghost use Rattle.tpol_tree.specs.Erased.{erased_branch, erased_branches, erased_element, erased_elements};

use crate::lists::{branch_before, element_before};
use crate::members::{description, name, type_of_element};
use serde_json::Value;
use std::alloc::Global;
use tpol_base::NoMemory;
use tpol_elements::{ElementType, LeafType, leaf_row, note_leaf};
use tpol_json::{PlaceRef, check_object, needed, refuse};
use tpol_members::{ElementFault, PolicyKind, Walk, note_unknown};
use tpol_tree::{Branch, Branches, Element, Elements};

/// How many ORs may stand inside one another.
pub const MAX_LEVELS: u32 = 16;

/// How few and how many branches an OR may have.
const MIN_BRANCHES: usize = 2;

const MAX_BRANCHES: usize = 64;

/// The member `policy` of a document or a branch. `Missing` without it, `WrongKind` for what is no list,
/// `EmptyPolicy` for an empty one, and else the first fault of its elements.
#[cycle(reading)]
#[tactic(auto, unfolding(crate::specs::Elements::policy_member))]
pub fn policy(
    alloc: Global,
    value: &Value,
    place: &PlaceRef<'_>,
    levels: u32,
    walk: &mut Walk,
) -> Result<Elements, ElementFault>
    ensures { LeavesAs erased_elements result walk.new
        (policy_member (element_at levels) (view value.now) place.now walk.old) }
{
    let (list, place) = needed(alloc, &*value, "policy", &*place)?;
    element_list(alloc, list, &place, levels, walk)
}

// A list of at least one element.
#[cycle(reading)]
#[tactic(auto, unfolding(crate::specs::Elements::elements_in))]
fn element_list(
    alloc: Global,
    value: &Value,
    place: &PlaceRef<'_>,
    levels: u32,
    walk: &mut Walk,
) -> Result<Elements, ElementFault>
    ensures { LeavesAs erased_elements result walk.new
        (elements_in (element_at levels) (view value.now) place.now walk.old) }
{
    match value {
        Value::Array(items) => {
            let items = items.as_slice();
            if items.is_empty() {
                return refuse(alloc, PolicyKind::EmptyPolicy, place);
            }
            elements(alloc, items, 0, place, levels, walk)
        }
        _ => refuse(alloc, PolicyKind::WrongKind, place),
    }
}

// The elements of a list from the item of this index on.
#[cycle(reading)]
#[tactic(auto, unfolding(crate::specs::Elements::elements_from))]
fn elements(
    alloc: Global,
    items: &[Value],
    index: usize,
    list: &PlaceRef<'_>,
    levels: u32,
    walk: &mut Walk,
) -> Result<Elements, ElementFault>
    ensures { LeavesAs erased_elements result walk.new
        (elements_from (element_at levels) index (items_view items.now) list.now walk.old) }
{
    match items.split_first() {
        None => Ok(Elements::End),
        Some((item, later)) => {
            let place = (&*list).item(index);
            let Some(next) = index.checked_add(1) else {
                return Err(ElementFault::NoMemory);
            };
            let first = counted(alloc, item, &place, levels, walk)?;
            match elements(alloc, later, next, list, levels, walk) {
                Ok(rest) => Ok(element_before(alloc, first, rest)?),
                Err(fault) => {
                    drop(first);
                    Err(fault)
                }
            }
        }
    }
}

// An element, if one may still come.
#[cycle(reading)]
#[tactic(auto, unfolding(crate::specs::Elements::counted))]
fn counted(
    alloc: Global,
    value: &Value,
    place: &PlaceRef<'_>,
    levels: u32,
    walk: &mut Walk,
) -> Result<Element, ElementFault>
    ensures { LeavesAs erased_element result walk.new
        (counted (element_at levels) (view value.now) place.now walk.old) }
{
    if walk.left == 0 {
        return refuse(alloc, PolicyKind::TooMany, place);
    }
    walk.left -= 1;
    element(alloc, value, place, levels, walk)
}

#[cycle(reading)]
#[tactic(auto, unfolding(crate::specs::Elements::element_by, crate::specs::Elements::element_of_type))]
fn element(
    alloc: Global,
    value: &Value,
    place: &PlaceRef<'_>,
    levels: u32,
    walk: &mut Walk,
) -> Result<Element, ElementFault>
    ensures { LeavesAs erased_element result walk.new
        (element_at levels (view value.now) place.now walk.old) }
{
    match type_of_element(alloc, value, place)? {
        ElementType::Or => {
            let branches = or(alloc, value, place, levels, walk)?;
            note_unknown(alloc, value, &["type", "branches"], place, walk)?;
            Ok(Element::Or(branches))
        }
        ElementType::Leaf(leaf) => leaf_element(alloc, leaf, value, place, walk),
        ElementType::Unsupported => refuse(
            alloc,
            PolicyKind::Unsupported,
            &(&*place).member("type"),
        ),
    }
}

// An element that holds no other elements.
#[tactic(auto, using(crate::proofs::Leaves::leaves), unfolding(crate::specs::Elements::leaf_element))]
fn leaf_element(
    alloc: Global,
    leaf: LeafType,
    value: &Value,
    place: &PlaceRef<'_>,
    walk: &mut Walk,
) -> Result<Element, ElementFault>
    ensures { LeavesAs erased_element result walk.new
        (leaf_element leaf (view value.now) place.now walk.old) }
{
    let element = leaf_row(alloc, leaf, value, place, walk)?;
    match note_leaf(alloc, leaf, value, place, walk) {
        Ok(()) => Ok(element),
        Err(NoMemory) => {
            drop(element);
            Err(ElementFault::NoMemory)
        }
    }
}

// The branches of an OR.
#[cycle(reading)]
#[tactic(auto, unfolding(crate::specs::Elements::or_at, crate::specs::Elements::or_by))]
fn or(
    alloc: Global,
    value: &Value,
    place: &PlaceRef<'_>,
    levels: u32,
    walk: &mut Walk,
) -> Result<Branches, ElementFault>
    ensures { LeavesAs erased_branches result walk.new
        (or_at levels (view value.now) place.now walk.old) }
{
    if levels == 0 {
        return refuse(alloc, PolicyKind::TooDeep, place);
    }
    let (list, place) = needed(alloc, &*value, "branches", &*place)?;
    branch_list(alloc, list, &place, levels - 1, walk)
}

// A list of 2 to 64 branches.
#[cycle(reading)]
#[tactic(auto, unfolding(crate::specs::Elements::branches_in))]
fn branch_list(
    alloc: Global,
    value: &Value,
    place: &PlaceRef<'_>,
    levels: u32,
    walk: &mut Walk,
) -> Result<Branches, ElementFault>
    ensures { LeavesAs erased_branches result walk.new
        (branches_in (element_at levels) (view value.now) place.now walk.old) }
{
    match value {
        Value::Array(items) => {
            let items = items.as_slice();
            if !is_branch_count(items) {
                return refuse(alloc, PolicyKind::BranchCount, place);
            }
            branches(alloc, items, 0, place, levels, walk)
        }
        _ => refuse(alloc, PolicyKind::WrongKind, place),
    }
}

#[tactic(auto, using(tpol_json::proofs::ItemCounts::counts))]
fn is_branch_count(items: &[Value]) -> bool
    ensures { result ≡ is_branch_count (items_count (items_view items.now)) }
{
    items.len() >= MIN_BRANCHES && items.len() <= MAX_BRANCHES
}

// The branches of a list from the item of this index on.
#[cycle(reading)]
#[tactic(auto, unfolding(crate::specs::Elements::branches_from))]
fn branches(
    alloc: Global,
    items: &[Value],
    index: usize,
    list: &PlaceRef<'_>,
    levels: u32,
    walk: &mut Walk,
) -> Result<Branches, ElementFault>
    ensures { LeavesAs erased_branches result walk.new
        (branches_from (element_at levels) index (items_view items.now) list.now walk.old) }
{
    match items.split_first() {
        None => Ok(Branches::End),
        Some((item, later)) => {
            let place = (&*list).item(index);
            let Some(next) = index.checked_add(1) else {
                return Err(ElementFault::NoMemory);
            };
            let first = branch(alloc, item, &place, levels, walk)?;
            match branches(alloc, later, next, list, levels, walk) {
                Ok(rest) => Ok(branch_before(alloc, first, rest)?),
                Err(fault) => {
                    drop(first);
                    Err(fault)
                }
            }
        }
    }
}

#[cycle(reading)]
#[tactic(auto, unfolding(crate::specs::Elements::branch_in))]
fn branch(
    alloc: Global,
    value: &Value,
    place: &PlaceRef<'_>,
    levels: u32,
    walk: &mut Walk,
) -> Result<Branch, ElementFault>
    ensures { LeavesAs erased_branch result walk.new
        (branch_in (element_at levels) (view value.now) place.now walk.old) }
{
    check_object(alloc, value, place)?;
    let name = name(alloc, value, place)?;
    let description = description(alloc, value, place)?;
    let elements = policy(alloc, value, place, levels, walk)?;
    note_unknown(
        alloc,
        value,
        &["name", "description", "policy"],
        place,
        walk,
    )?;
    Ok(Branch {
        name,
        description,
        elements,
    })
}
