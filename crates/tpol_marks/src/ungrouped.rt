//! The branches of a filled OR, as the document has them: those of an OR of more than eight stand in groups.

ghost use Rattle.std.specs.Prelude.{◌≡◌, ◌∷◌, ◌++◌, IfOk, List, OnOk, length, map, take, ℕ};
ghost use Rattle.tpol_fill.specs.Groups.{NamedBranch, branches_in, group, grouped, in_eights, numbered};
ghost use Rattle.tpol_tree.specs.ClosedErased.{erased_elements};

use std::alloc::Global;
use tpol_base::NoMemory;
use tpol_tree::{ClosedBranches, ClosedElement, ClosedElements};

/// The most branches of one PolicyOR (TPM 2.0 Part 3, PolicyOR).
const MOST_BRANCHES: usize = 8;

/// The elements of each branch of an OR that was filled, in the order of the document, whose OR has `count` branches.
pub fn ungrouped<'a>(
    alloc: Global,
    branches: &'a ClosedBranches,
    count: usize,
) -> Result<Vec<&'a ClosedElements>, NoMemory>
    ensures { (all : List NamedBranch) → branches_in branches.now ≡ grouped all → length all ≡ count
        → IfOk result (λ list. map (λ elements. erased_elements elements.now) list.items
        ≡ map (λ branch. branch.1) all) }
{
    let mut list = Vec::new(alloc);
    if count > MOST_BRANCHES {
        push_groups(&mut list, branches, count)?;
    } else {
        push_branches(&mut list, branches)?;
    }
    Ok(list)
}

// Adds the branches in these groups, which are `left`.
fn push_groups<'a>(
    list: &mut Vec<&'a ClosedElements>,
    groups: &'a ClosedBranches,
    left: usize,
) -> Result<(), NoMemory>
    ensures { (number : ℕ) (all : List NamedBranch)
        → branches_in groups.now ≡ numbered number (in_eights all) → length all ≡ left
        → OnOk result (map (λ elements. erased_elements elements.now) list.new.items
        ≡ map (λ elements. erased_elements elements.now) list.old.items
        ++ map (λ branch. branch.1) all) }
{
    match groups {
        ClosedBranches::End => Ok(()),
        ClosedBranches::More(group, rest) => {
            push_group(list, &group.policy.elements, left)?;
            push_groups(list, rest, left.saturating_sub(MOST_BRANCHES))
        }
    }
}

// Adds the branches of one group, where this and the groups behind it have `left`: a group of one is its branch.
fn push_group<'a>(
    list: &mut Vec<&'a ClosedElements>,
    elements: &'a ClosedElements,
    left: usize,
) -> Result<(), NoMemory>
    ensures { (number : ℕ) (first : NamedBranch) (rest : List NamedBranch)
        → erased_elements elements.now ≡ (group number (take 8 (first ∷ rest))).1
        → length (first ∷ rest) ≡ left
        → OnOk result (map (λ elements. erased_elements elements.now) list.new.items
        ≡ map (λ elements. erased_elements elements.now) list.old.items
        ++ map (λ branch. branch.1) (take 8 (first ∷ rest))) }
{
    if left == 1 {
        list.push(elements)?;
        return Ok(());
    }
    match elements {
        ClosedElements::End => Ok(()),
        ClosedElements::More(element, _) => match &**element {
            ClosedElement::Or(branches) => push_branches(list, branches),
            _ => Ok(()),
        },
    }
}

// Adds these branches.
fn push_branches<'a>(
    list: &mut Vec<&'a ClosedElements>,
    branches: &'a ClosedBranches,
) -> Result<(), NoMemory>
    ensures { OnOk result (map (λ elements. erased_elements elements.now) list.new.items
        ≡ map (λ elements. erased_elements elements.now) list.old.items
        ++ map (λ branch. branch.1) (branches_in branches.now)) }
{
    match branches {
        ClosedBranches::End => Ok(()),
        ClosedBranches::More(branch, rest) => {
            list.push(&branch.policy.elements)?;
            push_branches(list, rest)
        }
    }
}
