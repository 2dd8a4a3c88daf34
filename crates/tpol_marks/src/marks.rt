//! The digest after each element of a policy, with the element's place in the document.

ghost use Rattle.std.specs.Option.{option_copied};
ghost use Rattle.std.specs.Prelude.{◌≡◌, ◌++◌, ◌∷◌, [], IfOk, OnOk, Option, length, map};
ghost use Rattle.tpol_marks.specs.Marks.{marks_of, marks_of_branches, marks_of_elements, marks_within, mark_of};
ghost use Rattle.tpol_digest.specs.Digest.{digest_at_element};
ghost use Rattle.tpol_fill.specs.Filling.{filled, filled_branches, filled_element, filled_elements};
ghost use Rattle.tpol_json.specs.Places.{at_item};
ghost use Rattle.tpol_name.specs.declared.sight.Sight.{Sight};
ghost use Rattle.tpol_tree.specs.ClosedErased.{erased, erased_element, erased_elements};
ghost use Rattle.tpol_tree.specs.Erased.{erased_policy};

use crate::ungrouped::ungrouped;
use std::alloc::Global;
use tpol_base::{Digest32, NoMemory, Sequence};
use tpol_digest::{digest_after_element, zero_digest};
use tpol_json::{Place, PlaceRef};
use tpol_tree::{Branches, Closed, ClosedElement, ClosedElements, Element, Elements, Policy};

/// The digest of a policy session after an element (TPM 2.0 Part 3, the policy commands), and the element's place.
#[derive(Drop)]
pub struct Mark {
    pub place: Place,
    pub digest: Digest32,
}

/// Marks in the order in which their digests are computed.
pub type Marks = Sequence<Mark>;

// Where in a list of elements, or of branches, a walk stands, and the digest before that.
#[derive(Clone, Copy)]
struct Next<'a> {
    list: &'a PlaceRef<'a>,
    index: usize,
    before: Digest32,
}

/// The marks of a policy's elements, where `closed` is that policy as it is filled, with its large ORs in groups: those
/// of an OR's branches, each from the digest before the OR, stand before that of the OR. It fails only where memory
/// ran out. Of another `closed` nothing is promised.
pub fn marks_of(alloc: Global, policy: &Policy, closed: &Closed) -> Result<Marks, NoMemory>
    ensures { (sight : Option Sight) → erased closed.now ≡ filled policy.now sight
        → IfOk result (λ marks. marks ≡ marks_of sight (erased_policy policy.now)) }
{
    let root = Place::root(alloc);
    let document = PlaceRef::at(&root);
    let list = document.member("policy");
    let next = Next {
        list: &list,
        index: 0,
        before: zero_digest(),
    };
    let mut marks = Marks::new(alloc);
    push_elements(alloc, &mut marks, &policy.elements, &closed.elements, &next)?;
    Ok(marks)
}

// Adds the marks of a list's elements, from the next on.
#[cycle(marks)]
fn push_elements(
    alloc: Global,
    marks: &mut Marks,
    written: &Elements,
    closed: &ClosedElements,
    next: &Next<'_>,
) -> Result<(), NoMemory>
    ensures { (sight : Option Sight)
        → erased_elements closed.now ≡ filled_elements sight written.now
        → OnOk result (marks.new ≡ marks.old
        ++ marks_of_elements sight next.now.list.now next.now.index written.now next.now.before) }
{
    match written {
        Elements::End => Ok(()),
        Elements::More(element, rest) => match closed {
            ClosedElements::End => Ok(()),
            ClosedElements::More(first, others) => {
                push_within(alloc, marks, element, first, next)?;
                let after = digest_after_element(first, next.before);
                let place = next.list.item(next.index).to_place(alloc)?;
                marks.push(Mark {
                    place,
                    digest: after,
                })?;
                let Some(index) = next.index.checked_add(1) else {
                    return Err(NoMemory);
                };
                let later = Next {
                    list: next.list,
                    index,
                    before: after,
                };
                push_elements(alloc, marks, rest, others, &later)
            }
        },
    }
}

// Adds the marks of the elements in the next element, if it is an OR.
#[cycle(marks)]
fn push_within(
    alloc: Global,
    marks: &mut Marks,
    written: &Element,
    closed: &ClosedElement,
    next: &Next<'_>,
) -> Result<(), NoMemory>
    ensures { (sight : Option Sight) → erased_element closed.now ≡ filled_element sight written.now
        → OnOk result (marks.new ≡ marks.old
        ++ marks_within sight (at_item next.now.list.now next.now.index) written.now
        next.now.before) }
{
    let Element::Or(branches) = written else {
        return Ok(());
    };
    let ClosedElement::Or(groups) = closed else {
        return Ok(());
    };
    let lists = ungrouped(alloc, groups, count(branches)?)?;
    let place = next.list.item(next.index);
    let list = place.member("branches");
    let first = Next {
        list: &list,
        index: 0,
        before: next.before,
    };
    push_branches(alloc, marks, branches, lists.as_slice(), &first)
}

// Adds the marks of a list's branches, from the next on.
#[cycle(marks)]
fn push_branches(
    alloc: Global,
    marks: &mut Marks,
    written: &Branches,
    closed: &[&ClosedElements],
    next: &Next<'_>,
) -> Result<(), NoMemory>
    ensures { (sight : Option Sight)
        → map (λ elements. erased_elements elements.now) closed.now
        ≡ map (λ branch. branch.1) (filled_branches sight written.now)
        → OnOk result (marks.new ≡ marks.old
        ++ marks_of_branches sight next.now.list.now next.now.index written.now next.now.before) }
{
    match written {
        Branches::End => Ok(()),
        Branches::More(branch, rest) => match closed.split_first() {
            None => Ok(()),
            Some((first, others)) => {
                let place = next.list.item(next.index);
                let list = place.member("policy");
                let inner = Next {
                    list: &list,
                    index: 0,
                    before: next.before,
                };
                push_elements(alloc, marks, &branch.elements, first, &inner)?;
                let Some(index) = next.index.checked_add(1) else {
                    return Err(NoMemory);
                };
                let later = Next {
                    list: next.list,
                    index,
                    before: next.before,
                };
                push_branches(alloc, marks, rest, others, &later)
            }
        },
    }
}

// How many branches there are.
fn count(branches: &Branches) -> Result<usize, NoMemory>
    ensures { IfOk result (λ n. (sight : Option Sight)
        → length (filled_branches sight branches.now) ≡ n) }
{
    match branches {
        Branches::End => Ok(0),
        Branches::More(_, rest) => count(rest)?.checked_add(1).ok_or(NoMemory),
    }
}
