// How many paths a policy has and how long they are, without listing them.

ghost use Rattle.tpol_digest.specs.Extent as spec;

use crate::approval::accepts;
use crate::extent::{Extent, MAX_PATHS};
use tpol_tree::{ApprovedDoc, ClosedBranches, ClosedElement, ClosedElements};

// The extent of the paths of elements, where documents may be entered `levels` deep.
#[cycle(counting)]
pub fn extent_of_elements(
    approvals: &[ApprovedDoc],
    levels: u8,
    elements: &ClosedElements,
) -> Extent
    ensures { spec.IsCapped result
        (spec.extent_at (spec.document_extent approvals.now levels) approvals.now elements.now) }
{
    match elements {
        ClosedElements::End => Extent::one_path(0),
        ClosedElements::More(element, rest) => {
            extent_of_element(approvals, levels, element).then(extent_of_elements(
                approvals, levels, rest,
            ))
        }
    }
}

// The extent of the paths of one element.
#[cycle(counting)]
pub fn extent_of_element(approvals: &[ApprovedDoc], levels: u8, element: &ClosedElement) -> Extent
    ensures { spec.IsCapped result
        (spec.extent_at_element (spec.document_extent approvals.now levels) approvals.now
        element.now) }
{
    match element {
        ClosedElement::Assert(_) => Extent::one_path(1),
        ClosedElement::Or(branches) => extent_of_branches(approvals, levels, branches),
        ClosedElement::Authorize { .. } | ClosedElement::AuthorizeNv { .. } => {
            extent_of_documents(approvals, levels, element).or(Extent::one_path(1))
        }
    }
}

// The extent of the paths of branches.
#[cycle(counting)]
fn extent_of_branches(approvals: &[ApprovedDoc], levels: u8, branches: &ClosedBranches) -> Extent
    ensures { spec.IsCapped result
        (spec.extent_at_branches
        (spec.document_extent approvals.now levels) approvals.now branches.now) }
{
    match branches {
        ClosedBranches::End => Extent::no_path(),
        ClosedBranches::More(branch, rest) => {
            extent_of_elements(approvals, levels, &branch.policy.elements)
                .with_move()
                .or(extent_of_branches(approvals, levels, rest))
        }
    }
}

// The extent of the paths of the documents that the element's approver approved, each with the approval's
// move. It stops where the limit is passed.
#[cycle(counting)]
fn extent_of_documents(approvals: &[ApprovedDoc], levels: u8, element: &ClosedElement) -> Extent
    ensures { spec.IsCapped result
        (spec.extent_by_approval
        (spec.document_extent approvals.now levels) element.now approvals.now) }
{
    let mut extent = Extent::no_path();
    if levels == 0 {
        return extent;
    }
    for document in approvals {
        if extent.paths > MAX_PATHS {
            return extent;
        }
        if accepts(element, document) {
            extent = extent.or(extent_of_elements(
                approvals,
                levels - 1,
                &document.closed.elements,
            ).with_move());
        }
    }
    extent
}
