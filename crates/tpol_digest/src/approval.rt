ghost use Rattle.std.specs.Prelude.{◌≡◌, is_some, IfOk, Some, None, if◌then◌else◌};
ghost use Rattle.std.specs.Option.{option_map};
ghost use Rattle.tpol_digest.specs.Paths as spec;

use std::alloc::Global;
use tpol_base::{Blob, Digest32, Name, NoMemory};
use tpol_tree::{ApprovedBy, ApprovedDoc, ClosedElement, Move};

/// The signature of an approval by this key with this policyRef; `None` where it is by another key, with
/// another policyRef or by an index.
pub fn signature_of_key(by: &ApprovedBy, key: &Name, policy_ref: &Blob) -> Option<Digest32>
    ensures { (digest : Digest32) → spec.approval_by_key key.now policy_ref.now digest by.now
        ≡ option_map (λ signature. Move.Approve key.now policy_ref.now digest signature) result }
{
    match by {
        ApprovedBy::Key {
            key: approver,
            policy_ref: given,
            signature,
        } => {
            if key == approver && policy_ref.as_slice() == given.as_slice() {
                Some(*signature)
            } else {
                None
            }
        }
        ApprovedBy::Index { .. } => None,
    }
}

/// Whether an approval is by this index.
pub fn is_by_index(by: &ApprovedBy, index: &Name) -> bool
    ensures { (digest : Digest32) → spec.approval_by_index index.now digest by.now
        ≡ (if result then Some (Move.ApproveNv index.now digest) else None) }
{
    match by {
        ApprovedBy::Key { .. } => false,
        ApprovedBy::Index { index: approver } => index == approver,
    }
}

/// Whether the element asks for an approval by whom the document was approved: by the same key with the
/// same policyRef, or by the same index.
pub fn accepts(element: &ClosedElement, document: &ApprovedDoc) -> bool
    ensures { result ≡ is_some (spec.approval_of element.now document.now) }
{
    match element {
        ClosedElement::Authorize { key, policy_ref } => {
            signature_of_key(&document.by, key, policy_ref).is_some()
        }
        ClosedElement::AuthorizeNv { index } => is_by_index(&document.by, index),
        ClosedElement::Assert(_) | ClosedElement::Or(_) => false,
    }
}

// The move that uses the document's approval for the element, if the element asks for it.
pub fn approval(
    alloc: Global,
    element: &ClosedElement,
    document: &ApprovedDoc,
) -> Result<Option<Move>, NoMemory>
    ensures { IfOk result (λ found. found ≡ spec.approval_of element.now document.now) }
{
    match element {
        ClosedElement::Authorize { key, policy_ref } => {
            match signature_of_key(&document.by, key, policy_ref) {
                None => Ok(None),
                Some(signature) => Ok(Some(Move::Approve {
                    key: *key,
                    policy_ref: Blob::from_slice(alloc, policy_ref.as_slice())?,
                    approved: document.digest,
                    signature,
                })),
            }
        }
        ClosedElement::AuthorizeNv { index } => {
            if is_by_index(&document.by, index) {
                Ok(Some(Move::ApproveNv {
                    index: *index,
                    approved: document.digest,
                }))
            } else {
                Ok(None)
            }
        }
        ClosedElement::Assert(_) | ClosedElement::Or(_) => Ok(None),
    }
}
