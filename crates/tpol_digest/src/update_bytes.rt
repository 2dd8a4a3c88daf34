// What a move hashes, as bytes; the strings of its hashes follow from it.

ghost use Rattle.std.specs.Prelude.{◌≡◌, IfOk};
ghost use Rattle.tpol_base.specs.CommandCode.{number_of_code};
ghost use Rattle.tpol_base.specs.Name.{name_bytes};
ghost use Rattle.tpol_digest.specs.Update as spec;
ghost use Rattle.tpol_digest.specs.UpdateBytes.{update_value};

use crate::command_code::code_of_assertion;
use crate::pieces::{both, comparison_of, policy_ref_of, rest_of};
use std::alloc::Global;
use tpol_base::{Blob, CommandCode, Digest32, Digests, Name, NoMemory};
use tpol_tree::{Assertion, Move};

/// The bytes of a digest.
const DIGEST_SIZE: usize = 32;

/// What a policy command hashes (TPM 2.0 Part 3, the policy commands). The new digest is
/// H(H(start || code || H(inner) || rest) || policy_ref), where a part that is None is left out with the hash that it
/// stands in: without an inner string H(inner), without a policy_ref the outer hash. The start is 32 zero bytes where
/// `fresh` holds and else the digest before; `rest` is the end of the first string.
#[derive(Drop)]
pub struct UpdateBytes {
    /// Whether the start is 32 zero bytes.
    pub fresh: bool,
    /// The command code.
    pub code: u32,
    /// A string whose digest stands in front of the rest.
    pub inner: Option<Blob>,
    pub rest: Blob,
    /// The bytes behind the first digest, where there is a second one.
    pub policy_ref: Option<Blob>,
}

// A command that hashes these bytes behind its code.
fn one_hash(command: CommandCode, rest: Blob) -> UpdateBytes
    ensures { update_value result ≡ spec.one_hash (number_of_code command) rest }
{
    UpdateBytes {
        fresh: false,
        code: command.number(),
        inner: None,
        rest,
        policy_ref: None,
    }
}

// A command that hashes a Name, and then the first digest with the policyRef.
fn two_hashes(
    alloc: Global,
    command: CommandCode,
    name: &Name,
    policy_ref: &Blob,
) -> Result<UpdateBytes, NoMemory>
    ensures { IfOk result (λ update. update_value update
        ≡ spec.two_hashes (number_of_code command) (name_bytes name.now) policy_ref.now) }
{
    let rest = name.to_bytes(alloc)?;
    let second = Blob::from_slice(alloc, policy_ref.as_slice())?;
    Ok(UpdateBytes {
        fresh: false,
        code: command.number(),
        inner: None,
        rest,
        policy_ref: Some(second),
    })
}

/// What an assertion hashes.
pub fn update_of_assertion(alloc: Global, assertion: &Assertion) -> Result<UpdateBytes, NoMemory>
    ensures { IfOk result (λ update. update_value update ≡ spec.update_of_assertion assertion.now) }
{
    let rest = rest_of(alloc, assertion)?;
    let inner = comparison(alloc, assertion)?;
    let policy_ref = policy_ref(alloc, assertion)?;
    Ok(UpdateBytes {
        fresh: false,
        code: code_of_assertion(assertion),
        inner,
        rest,
        policy_ref,
    })
}

// What an assertion compares with, if it does, as a string.
fn comparison(alloc: Global, assertion: &Assertion) -> Result<Option<Blob>, NoMemory>
    ensures { IfOk result (λ inner. inner ≡ (spec.update_of_assertion assertion.now).inner) }
{
    match comparison_of(assertion) {
        None => Ok(None),
        Some(compared) => {
            let inner = both(alloc, compared.0.as_slice(), &compared.1)?;
            Ok(Some(inner))
        }
    }
}

// A copy of what an assertion's second hash takes, if there is one.
fn policy_ref(alloc: Global, assertion: &Assertion) -> Result<Option<Blob>, NoMemory>
    ensures { IfOk result (λ policy_ref. policy_ref
        ≡ (spec.update_of_assertion assertion.now).policy_ref) }
{
    match policy_ref_of(assertion) {
        None => Ok(None),
        Some(policy_ref) => Ok(Some(Blob::from_slice(alloc, policy_ref.as_slice())?)),
    }
}

// The bytes of digests joined, in room for all.
pub(crate) fn joined_digests(alloc: Global, digests: &[Digest32]) -> Result<Blob, NoMemory>
    ensures { IfOk result (λ bytes. bytes ≡ spec.joined digests.now) }
{
    let room = digests.len().saturating_mul(DIGEST_SIZE);
    let mut bytes = Vec::with_capacity(alloc, room)?;
    for digest in digests {
        bytes.extend_from_slice(&digest.bytes)?;
    }
    Ok(Blob::from_vec(bytes))
}

/// What an OR hashes.
pub fn update_of_or(alloc: Global, digests: &Digests) -> Result<UpdateBytes, NoMemory>
    ensures { IfOk result (λ update. update_value update ≡ spec.update_of_or digests.now) }
{
    let rest = joined_digests(alloc, digests.as_slice())?;
    let mut update = one_hash(CommandCode::PolicyOr, rest);
    update.fresh = true;
    Ok(update)
}

/// What an AUTHORIZE hashes.
pub fn update_of_approve(
    alloc: Global,
    key: &Name,
    policy_ref: &Blob,
) -> Result<UpdateBytes, NoMemory>
    ensures { IfOk result (λ update. update_value update
        ≡ spec.update_of_approve key.now policy_ref.now) }
{
    let mut update = two_hashes(alloc, CommandCode::PolicyAuthorize, key, policy_ref)?;
    update.fresh = true;
    Ok(update)
}

/// What an AUTHORIZENV hashes.
pub fn update_of_approve_nv(alloc: Global, index: &Name) -> Result<UpdateBytes, NoMemory>
    ensures { IfOk result (λ update. update_value update ≡ spec.update_of_approve_nv index.now) }
{
    let rest = index.to_bytes(alloc)?;
    let mut update = one_hash(CommandCode::PolicyAuthorizeNv, rest);
    update.fresh = true;
    Ok(update)
}

/// What a move hashes.
pub fn update_of_move(alloc: Global, act: &Move) -> Result<UpdateBytes, NoMemory>
    ensures { IfOk result (λ update. update_value update ≡ spec.update_of act.now) }
{
    match act {
        Move::Assert(assertion) => update_of_assertion(alloc, assertion),
        Move::Or(digests) => update_of_or(alloc, digests),
        Move::Approve {
            key,
            policy_ref,
            approved: _,
            signature: _,
        } => update_of_approve(alloc, key, policy_ref),
        Move::ApproveNv { index, approved: _ } => update_of_approve_nv(alloc, index),
    }
}
