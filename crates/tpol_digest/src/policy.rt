ghost use Rattle.std.specs.Prelude.{◌≡◌, ◌++◌, ℕ, List, OnOk};
ghost use Rattle.tpol_hash.specs.Messages.{Holds};
ghost use Rattle.tpol_digest.specs.Update.{joined};
ghost use Rattle.tpol_digest.specs.Digest as spec;
ghost use Rattle.tpol_digest.specs.Term.{bytes_of_term, term_of_approve, term_of_approve_nv, term_of_or, term_of_policy};

use crate::assertion::extend;
use crate::update::{hash_twice, start};
use tpol_base::{Blob, CommandCode, Digest32, Digests, Name, NoMemory};
use tpol_hash::Hasher;
use tpol_tree::{Closed, ClosedBranches, ClosedElement, ClosedElements};

/// The digest after PolicyOR with these digests (TPM 2.0 Part 3, PolicyOR).
pub fn or_digest(digests: &[Digest32]) -> Digest32
    ensures digest { result ≡ spec.or_digest digests.now }
    ensures term { result ≡ bytes_of_term (term_of_or digests.now) }
{
    let mut hasher = start(&Digest32::ZERO, CommandCode::PolicyOr.number());
    for digest in digests {
        hasher.put(&digest.bytes);
    }
    hasher.done()
}

/// The digest after PolicyAuthorize of this key with this policyRef (TPM 2.0 Part 3, PolicyAuthorize).
pub fn approve_digest(key: &Name, policy_ref: &Blob) -> Digest32
    ensures digest { result ≡ spec.approve_digest key.now policy_ref.now }
    ensures term { result ≡ bytes_of_term (term_of_approve key.now policy_ref.now) }
{
    hash_twice(
        &Digest32::ZERO,
        CommandCode::PolicyAuthorize,
        key,
        policy_ref,
    )
}

/// The digest after PolicyAuthorizeNV with this index (TPM 2.0 Part 3, PolicyAuthorizeNV).
pub fn approve_nv_digest(index: &Name) -> Digest32
    ensures digest { result ≡ spec.approve_nv_digest index.now }
    ensures term { result ≡ bytes_of_term (term_of_approve_nv index.now) }
{
    let mut hasher = start(&Digest32::ZERO, CommandCode::PolicyAuthorizeNv.number());
    hasher.put_name(index);
    hasher.done()
}

/// The digest of a policy: that of its elements, from 32 zero bytes. Each branch of an OR starts from the
/// digest before the OR.
pub fn digest_of(policy: &Closed) -> Digest32
    ensures digest { result ≡ spec.policy_digest policy.now }
    ensures term { result ≡ bytes_of_term (term_of_policy policy.now) }
{
    digest_after_elements(&policy.elements, Digest32::ZERO)
}

/// 32 zero bytes.
pub fn zero_digest() -> Digest32
    ensures { result ≡ spec.zero_digest }
{
    Digest32::ZERO
}

/// The digest after elements, where `before` is the digest before them.
#[cycle(policy)]
pub fn digest_after_elements(elements: &ClosedElements, before: Digest32) -> Digest32
    ensures { result ≡ spec.digest_at elements.now before }
{
    match elements {
        ClosedElements::End => before,
        ClosedElements::More(element, rest) => {
            digest_after_elements(rest, digest_after_element(element, before))
        }
    }
}

/// The digest after one element, where `before` is the digest before it.
#[cycle(policy)]
pub fn digest_after_element(element: &ClosedElement, before: Digest32) -> Digest32
    ensures { result ≡ spec.digest_at_element element.now before }
{
    match element {
        ClosedElement::Assert(assertion) => extend(before, assertion),
        ClosedElement::Or(branches) => {
            let mut hasher = start(&Digest32::ZERO, CommandCode::PolicyOr.number());
            put_branches(&mut hasher, branches, before);
            hasher.done()
        }
        ClosedElement::Authorize { key, policy_ref } => approve_digest(key, policy_ref),
        ClosedElement::AuthorizeNv { index } => approve_nv_digest(index),
    }
}

// Puts the digests of all branches, each from the digest before the OR.
#[cycle(policy)]
fn put_branches(hasher: &mut Hasher, branches: &ClosedBranches, before: Digest32)
    ensures { (m : List ℕ) → Holds hasher.old m
        → Holds hasher.new (m ++ joined (spec.branch_digests branches.now before)) }
{
    match branches {
        ClosedBranches::End => {}
        ClosedBranches::More(branch, rest) => {
            hasher.put(&digest_after_elements(&branch.policy.elements, before).bytes);
            put_branches(hasher, rest, before);
        }
    }
}

/// Adds the digests of all branches, each from the digest before the OR, at the end.
pub fn push_branch_digests(
    digests: &mut Digests,
    branches: &ClosedBranches,
    before: Digest32,
) -> Result<(), NoMemory>
    ensures { OnOk result (digests.new ≡ digests.old ++ spec.branch_digests branches.now before) }
{
    match branches {
        ClosedBranches::End => Ok(()),
        ClosedBranches::More(branch, rest) => {
            digests.push(digest_after_elements(&branch.policy.elements, before))?;
            push_branch_digests(digests, rest, before)
        }
    }
}
