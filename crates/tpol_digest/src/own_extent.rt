// How many ways there are through what asks for no approval, and how long they are: the same whatever documents are
// approved, so that it can be kept.

ghost use Rattle.std.specs.Prelude.{IfSome};
ghost use Rattle.tpol_digest.specs.Extent as spec;

use crate::extent::Extent;
use tpol_tree::{ClosedBranches, ClosedElement, ClosedElements};

// The extent of the paths of elements, where none of them asks for an approval.
#[cycle(own_extent)]
fn own_extent(elements: &ClosedElements) -> Option<Extent>
    ensures { IfSome result (spec.IsOwnExtent elements.now) }
{
    match elements {
        ClosedElements::End => Some(Extent::one_path(0)),
        ClosedElements::More(element, rest) => {
            let first = own_extent_of_element(element)?;
            let others = own_extent(rest)?;
            Some(first.then(others))
        }
    }
}

// The same of one element.
#[cycle(own_extent)]
fn own_extent_of_element(element: &ClosedElement) -> Option<Extent>
    ensures { IfSome result (spec.IsOwnExtentOfElement element.now) }
{
    match element {
        ClosedElement::Assert(_) => Some(Extent::one_path(1)),
        ClosedElement::Or(branches) => own_extent_of_branches(branches),
        ClosedElement::Authorize { .. } | ClosedElement::AuthorizeNv { .. } => None,
    }
}

// The same of branches.
#[cycle(own_extent)]
pub fn own_extent_of_branches(branches: &ClosedBranches) -> Option<Extent>
    ensures { IfSome result (spec.IsOwnExtentOfBranches branches.now) }
{
    match branches {
        ClosedBranches::End => Some(Extent::no_path()),
        ClosedBranches::More(branch, rest) => {
            let first = own_extent(&branch.policy.elements)?;
            let others = own_extent_of_branches(rest)?;
            Some(first.with_move().or(others))
        }
    }
}
