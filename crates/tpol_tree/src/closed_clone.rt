//! Copies of closed policies. The cells of a policy lead back to themselves, and a derived `clone` would say
//! nothing of them.

ghost use Rattle.std.specs.Prelude.{◌≡◌, IfOk};
ghost use Rattle.tpol_tree.specs.ClosedErased.{erased, erased_branches, erased_element, erased_elements};

use crate::{Closed, ClosedBranch, ClosedBranches, ClosedElement, ClosedElements};
use std::alloc::AllocError;

impl Clone for Closed {
    ghost is_clone = { λ closed copy. erased copy ≡ erased closed };

    fn clone(&self) -> Result<Closed, AllocError> {
        Ok(Closed {
            elements: copy_elements(&self.elements)?,
        })
    }
}

#[cycle(closed_clone)]
fn copy_elements(elements: &ClosedElements) -> Result<ClosedElements, AllocError>
    ensures { IfOk result (λ copy. erased_elements copy ≡ erased_elements elements.now) }
{
    match elements {
        ClosedElements::End => Ok(ClosedElements::End),
        ClosedElements::More(element, rest) => {
            let alloc = *Box::allocator(element);
            let element = copy_element(element)?;
            let rest = copy_elements(rest)?;
            Ok(ClosedElements::More(Box::new(alloc, element)?, Box::new(alloc, rest)?))
        }
    }
}

#[cycle(closed_clone)]
fn copy_element(element: &ClosedElement) -> Result<ClosedElement, AllocError>
    ensures { IfOk result (λ copy. erased_element copy ≡ erased_element element.now) }
{
    match element {
        ClosedElement::Assert(assertion) => Ok(ClosedElement::Assert(assertion.clone()?)),
        ClosedElement::Or(branches) => Ok(ClosedElement::Or(copy_branches(branches)?)),
        ClosedElement::Authorize { key, policy_ref } => Ok(ClosedElement::Authorize {
            key: *key,
            policy_ref: policy_ref.clone()?,
        }),
        ClosedElement::AuthorizeNv { index } => Ok(ClosedElement::AuthorizeNv { index: *index }),
    }
}

#[cycle(closed_clone)]
fn copy_branches(branches: &ClosedBranches) -> Result<ClosedBranches, AllocError>
    ensures { IfOk result (λ copy. erased_branches copy ≡ erased_branches branches.now) }
{
    match branches {
        ClosedBranches::End => Ok(ClosedBranches::End),
        ClosedBranches::More(branch, rest) => {
            let alloc = *Box::allocator(branch);
            let branch = ClosedBranch {
                name: branch.name.clone()?,
                policy: Closed {
                    elements: copy_elements(&branch.policy.elements)?,
                },
            };
            let rest = copy_branches(rest)?;
            Ok(ClosedBranches::More(Box::new(alloc, branch)?, Box::new(alloc, rest)?))
        }
    }
}
