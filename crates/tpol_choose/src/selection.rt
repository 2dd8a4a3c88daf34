// The selection of PCRs that the first move of a policy asks for. Where alternatives follow each other they
// mostly ask for the same one: its digest is made once, before the first of them (see `Client::keeping`).

use crate::approving::approval;
use tpol_tree::{ApprovedDoc, Assertion, ClosedBranches, ClosedElement, ClosedElements};

// That of the first of the documents that the element's approver approved.
pub fn first_of_documents(element: &ClosedElement, approvals: &[ApprovedDoc]) -> Option<u32> {
    for document in approvals {
        if approval(element, document).is_some() {
            return first_of_elements(&document.closed.elements);
        }
    }
    None
}

// That of elements; `None` where the first move is no PolicyPCR.
#[cycle(selection)]
fn first_of_elements(elements: &ClosedElements) -> Option<u32> {
    match elements {
        ClosedElements::End => None,
        ClosedElements::More(element, _) => first_of_element(element),
    }
}

#[cycle(selection)]
fn first_of_element(element: &ClosedElement) -> Option<u32> {
    match element {
        ClosedElement::Assert(Assertion::Pcr { mask, .. }) => Some(*mask),
        ClosedElement::Or(branches) => first_of_branches(branches),
        _ => None,
    }
}

// That of branches, which is that of the first one.
#[cycle(selection)]
pub fn first_of_branches(branches: &ClosedBranches) -> Option<u32> {
    match branches {
        ClosedBranches::End => None,
        ClosedBranches::More(branch, _) => first_of_elements(&branch.policy.elements),
    }
}
