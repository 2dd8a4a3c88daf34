//! Filled policies that are seen to be the same, wherever they lie in memory. An answer is true only where they are; a
//! false says nothing, and costs no more than that digests are computed once more.

ghost use Rattle.std.specs.Prelude.{◌≡◌, IsTrue};
ghost use Rattle.tpol_tree.specs.ClosedErased.{erased, erased_branches, erased_element, erased_elements};

use tpol_base::{Blob, Compare, Digest32, Digests, Name, Text};
use tpol_tree::{Assertion, Closed, ClosedBranches, ClosedElement, ClosedElements};

// Whether two policies are seen to be the same: true only where they are.
pub fn is_same_policy(a: &Closed, b: &Closed) -> bool
    ensures { IsTrue result → erased a.now ≡ erased b.now }
{
    are_same_elements(&a.elements, &b.elements)
}

#[cycle(same_policy)]
fn are_same_elements(a: &ClosedElements, b: &ClosedElements) -> bool
    ensures { IsTrue result → erased_elements a.now ≡ erased_elements b.now }
{
    match (a, b) {
        (ClosedElements::End, ClosedElements::End) => true,
        (ClosedElements::More(a, a_rest), ClosedElements::More(b, b_rest)) => {
            is_same_element(a, b) && are_same_elements(a_rest, b_rest)
        }
        _ => false,
    }
}

#[cycle(same_policy)]
fn is_same_element(a: &ClosedElement, b: &ClosedElement) -> bool
    ensures { IsTrue result → erased_element a.now ≡ erased_element b.now }
{
    match (a, b) {
        (ClosedElement::Assert(a), ClosedElement::Assert(b)) => is_same_assertion(a, b),
        (ClosedElement::Or(a), ClosedElement::Or(b)) => are_same_branches(a, b),
        (
            ClosedElement::Authorize { key, policy_ref },
            ClosedElement::Authorize {
                key: other_key,
                policy_ref: other_ref,
            },
        ) => is_same_name(key, other_key) && are_same_bytes(policy_ref, other_ref),
        (ClosedElement::AuthorizeNv { index }, ClosedElement::AuthorizeNv { index: other }) =>
            is_same_name(index, other),
        _ => false,
    }
}

#[cycle(same_policy)]
fn are_same_branches(a: &ClosedBranches, b: &ClosedBranches) -> bool
    ensures { IsTrue result → erased_branches a.now ≡ erased_branches b.now }
{
    match (a, b) {
        (ClosedBranches::End, ClosedBranches::End) => true,
        (ClosedBranches::More(a, a_rest), ClosedBranches::More(b, b_rest)) => {
            is_same_text(&a.name, &b.name)
                && are_same_elements(&a.policy.elements, &b.policy.elements)
                && are_same_branches(a_rest, b_rest)
        }
        _ => false,
    }
}

fn is_same_assertion(a: &Assertion, b: &Assertion) -> bool
    ensures { IsTrue result → a.now ≡ b.now }
{
    match (a, b) {
        (Assertion::CommandCode(code), Assertion::CommandCode(other)) => code == other,
        (Assertion::Locality(localities), Assertion::Locality(other)) => localities == other,
        (Assertion::CpHash(digest), Assertion::CpHash(other))
        | (Assertion::NameHash(digest), Assertion::NameHash(other)) => {
            is_same_digest(digest, other)
        }
        (Assertion::NvWritten(written), Assertion::NvWritten(other)) => written == other,
        (Assertion::AuthValue, Assertion::AuthValue)
        | (Assertion::Password, Assertion::Password)
        | (Assertion::PhysicalPresence, Assertion::PhysicalPresence) => true,
        (
            Assertion::Duplication {
                object,
                parent,
                include,
            },
            Assertion::Duplication {
                object: other_object,
                parent: other_parent,
                include: other_include,
            },
        ) => {
            is_same_name(object, other_object)
                && is_same_name(parent, other_parent)
                && include == other_include
        }
        _ => is_same_authorization(a, b) || is_same_test(a, b),
    }
}

// Whether both are PolicySecret, or both PolicySigned, with the same values.
fn is_same_authorization(a: &Assertion, b: &Assertion) -> bool
    ensures { IsTrue result → a.now ≡ b.now }
{
    match (a, b) {
        (
            Assertion::Secret {
                entity: name,
                policy_ref,
                cp_hash,
                expiration,
            },
            Assertion::Secret {
                entity: other_name,
                policy_ref: other_ref,
                cp_hash: other_hash,
                expiration: other_expiration,
            },
        )
        | (
            Assertion::Signed {
                key: name,
                policy_ref,
                cp_hash,
                expiration,
            },
            Assertion::Signed {
                key: other_name,
                policy_ref: other_ref,
                cp_hash: other_hash,
                expiration: other_expiration,
            },
        ) => {
            is_same_name(name, other_name)
                && are_same_bytes(policy_ref, other_ref)
                && is_same_cp_hash(cp_hash, other_hash)
                && expiration == other_expiration
        }
        _ => false,
    }
}

// Whether both test the same values: of PCRs, of an index, or of the counters and the time.
fn is_same_test(a: &Assertion, b: &Assertion) -> bool
    ensures { IsTrue result → a.now ≡ b.now }
{
    match (a, b) {
        (
            Assertion::Pcr {
                mask,
                pcr_digest,
                values,
            },
            Assertion::Pcr {
                mask: other_mask,
                pcr_digest: other_digest,
                values: other_values,
            },
        ) => {
            mask == other_mask
                && is_same_digest(pcr_digest, other_digest)
                && are_same_digests(values, other_values)
        }
        (
            Assertion::Nv {
                index,
                operand,
                offset,
                operation,
            },
            Assertion::Nv {
                index: other_index,
                operand: other_operand,
                offset: other_offset,
                operation: other_operation,
            },
        ) => {
            is_same_name(index, other_index)
                && are_same_bytes(operand, other_operand)
                && offset == other_offset
                && is_same_comparison(*operation, *other_operation)
        }
        (
            Assertion::CounterTimer {
                operand,
                offset,
                operation,
            },
            Assertion::CounterTimer {
                operand: other_operand,
                offset: other_offset,
                operation: other_operation,
            },
        ) => {
            are_same_bytes(operand, other_operand)
                && offset == other_offset
                && is_same_comparison(*operation, *other_operation)
        }
        _ => false,
    }
}

fn is_same_name(a: &Name, b: &Name) -> bool
    ensures { IsTrue result → a.now ≡ b.now }
{
    match (a, b) {
        (Name::Empty, Name::Empty) => true,
        (Name::Handle(a), Name::Handle(b)) => a == b,
        (Name::Hash(a), Name::Hash(b)) => is_same_digest(a, b),
        _ => false,
    }
}

fn is_same_text(a: &Text, b: &Text) -> bool
    ensures { IsTrue result → a.now ≡ b.now }
{
    a.as_str() == b.as_str()
}

fn are_same_bytes(a: &Blob, b: &Blob) -> bool
    ensures { IsTrue result → a.now ≡ b.now }
{
    a.as_slice() == b.as_slice()
}

#[tactic(auto, using(crate::proofs::SameDigests::digest_is_same))]
fn is_same_digest(a: &Digest32, b: &Digest32) -> bool
    ensures { IsTrue result → a.now ≡ b.now }
{
    a.bytes == b.bytes
}

fn are_same_digests(a: &Digests, b: &Digests) -> bool
    ensures { IsTrue result → a.now ≡ b.now }
{
    a.as_slice() == b.as_slice()
}

fn is_same_cp_hash(a: &Option<Digest32>, b: &Option<Digest32>) -> bool
    ensures { IsTrue result → a.now ≡ b.now }
{
    match (a, b) {
        (None, None) => true,
        (Some(a), Some(b)) => is_same_digest(a, b),
        _ => false,
    }
}

fn is_same_comparison(a: Compare, b: Compare) -> bool
    ensures { IsTrue result → a ≡ b }
{
    a == b
}
