// The moves that use approvals.

ghost use Rattle.std.specs.Prelude.{◌≡◌, option_map, Option};
ghost use Rattle.tpol_choose.specs.Acts.{move_of};
ghost use Rattle.tpol_choose.specs.Outside.{outside_move};
ghost use Rattle.tpol_digest.specs.Paths as spec;

use crate::act::Act;
use tpol_digest::{is_by_index, signature_of_key, zero_digest};
use tpol_tree::{ApprovedDoc, ClosedElement};

// The move that uses a document's approval for the element, if the element asks for it.
pub fn approval<'a>(element: &'a ClosedElement, document: &ApprovedDoc) -> Option<Act<'a>>
    ensures { option_map move_of result ≡ spec.approval_of element.now document.now }
{
    match element {
        ClosedElement::Authorize { key, policy_ref } => {
            match signature_of_key(&document.by, key, policy_ref) {
                Some(signature) => Some(Act::Approve {
                    key,
                    policy_ref,
                    approved: document.digest,
                    signature,
                }),
                None => None,
            }
        }
        ClosedElement::AuthorizeNv { index } => {
            if is_by_index(&document.by, index) {
                Some(Act::ApproveNv {
                    index,
                    approved: document.digest,
                })
            } else {
                None
            }
        }
        ClosedElement::Assert(_) | ClosedElement::Or(_) => None,
    }
}

// The approval of a policy that no listed document has, if the element asks for one.
pub fn outside_approval(element: &ClosedElement) -> Option<Act<'_>>
    ensures { option_map move_of result ≡ outside_move element.now }
{
    match element {
        ClosedElement::Authorize { key, policy_ref } => Some(Act::Approve {
            key,
            policy_ref,
            approved: zero_digest(),
            signature: zero_digest(),
        }),
        ClosedElement::AuthorizeNv { index } => Some(Act::ApproveNv {
            index,
            approved: zero_digest(),
        }),
        ClosedElement::Assert(_) | ClosedElement::Or(_) => None,
    }
}
