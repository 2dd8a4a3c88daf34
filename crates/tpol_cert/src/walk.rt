// The choices of one path, by its index, without the others. Nothing is hashed.

ghost use Rattle.std.specs.Prelude.{◌≡◌, ◌+◌, ◌<◌, ◌≤◌, ◌^◌, IfOk, OnOk, length};
ghost use Rattle.tpol_cert.specs.Choices.{approval_choices, branch_choices, element_choices, element_list_choices};
ghost use Rattle.tpol_cert.specs.Going.{GoesOn};

use crate::{Choice, Choices};
use tpol_base::NoMemory;
use tpol_digest::{accepts, count_element_ways, count_ways};
use tpol_tree::{ApprovedDoc, ClosedBranches, ClosedElement, ClosedElements};

// The approved documents, which may be entered `levels` deep where the walk is.
#[derive(Clone, Copy)]
pub struct Scope<'a> {
    pub approvals: &'a [ApprovedDoc],
    pub levels: u8,
}

// Adds the choices of the way through elements that has an index among their `count` ways, from 0.
#[cycle(walk)]
pub fn push_elements(
    scope: &Scope<'_>,
    choices: &mut Choices,
    elements: &ClosedElements,
    index: u64,
    count: u64,
) -> Result<(), NoMemory>
    requires counted { count ≡ length
        (element_list_choices scope.now.approvals.now scope.now.levels elements.now) }
    requires few { count ≤ 65536 }
    requires inside { index < count }
    ensures { OnOk result (GoesOn choices.old
        (element_list_choices scope.now.approvals.now scope.now.levels elements.now) index
        choices.new) }
{
    match elements {
        ClosedElements::End => Ok(()),
        ClosedElements::More(element, rest) => {
            let ways = count_element_ways(scope.approvals, scope.levels, element);
            let behind = count / ways;
            push_element(scope, choices, element, index / behind)?;
            push_elements(scope, choices, rest, index % behind, behind)
        }
    }
}

// The same of one element.
#[cycle(walk)]
fn push_element(
    scope: &Scope<'_>,
    choices: &mut Choices,
    element: &ClosedElement,
    index: u64,
) -> Result<(), NoMemory>
    requires few { length (element_choices scope.now.approvals.now scope.now.levels element.now)
        ≤ 65536 }
    requires inside { index < length
        (element_choices scope.now.approvals.now scope.now.levels element.now) }
    ensures { OnOk result (GoesOn choices.old
        (element_choices scope.now.approvals.now scope.now.levels element.now) index choices.new) }
{
    match element {
        ClosedElement::Assert(_) => Ok(()),
        ClosedElement::Or(branches) => push_branch(scope, choices, branches, 1, index),
        ClosedElement::Authorize { .. } | ClosedElement::AuthorizeNv { .. } => {
            push_approval(scope, choices, element, index)
        }
    }
}

// The same of branches from a position on.
#[cycle(walk)]
fn push_branch(
    scope: &Scope<'_>,
    choices: &mut Choices,
    branches: &ClosedBranches,
    position: u32,
    index: u64,
) -> Result<(), NoMemory>
    requires few { length (branch_choices scope.now.approvals.now scope.now.levels branches.now
        position) ≤ 65536 }
    requires inside { index < length
        (branch_choices scope.now.approvals.now scope.now.levels branches.now position) }
    ensures { OnOk result (GoesOn choices.old
        (branch_choices scope.now.approvals.now scope.now.levels branches.now position) index
        choices.new) }
{
    match branches {
        ClosedBranches::End => Ok(()),
        ClosedBranches::More(branch, rest) => {
            let elements = &branch.policy.elements;
            let count = count_ways(scope.approvals, scope.levels, elements);
            if index < count {
                choices.push(Choice::Branch(position))?;
                push_elements(scope, choices, elements, index, count)
            } else {
                push_branch(scope, choices, rest, next_number(position)?, index - count)
            }
        }
    }
}

// The number behind one, which must fit 32 bits.
pub fn next_number(number: u32) -> Result<u32, NoMemory>
    ensures next { IfOk result (λ next. next ≡ number + 1) }
    ensures fits { IfOk result (λ next. next < 2 ^ 32) }
{
    number.checked_add(1).ok_or(NoMemory)
}

// The same of an element that asks for an approval.
#[cycle(walk)]
fn push_approval(
    scope: &Scope<'_>,
    choices: &mut Choices,
    element: &ClosedElement,
    index: u64,
) -> Result<(), NoMemory>
    requires few { length (approval_choices scope.now.approvals.now scope.now.levels element.now)
        ≤ 65536 }
    requires inside { index < length
        (approval_choices scope.now.approvals.now scope.now.levels element.now) }
    ensures { OnOk result (GoesOn choices.old
        (approval_choices scope.now.approvals.now scope.now.levels element.now) index choices.new) }
{
    if scope.levels > 0 {
        let inside = Scope {
            approvals: scope.approvals,
            levels: scope.levels - 1,
        };
        let mut left = index;
        let mut number = 1;
        for document in scope.approvals {
            if accepts(element, document) {
                let elements = &document.closed.elements;
                let count = count_ways(scope.approvals, inside.levels, elements);
                if left < count {
                    choices.push(Choice::Document(number))?;
                    return push_elements(&inside, choices, elements, left, count);
                }
                left -= count;
                number = next_number(number)?;
            }
        }
    }
    choices.push(Choice::Outside)
}
