//! How the machine judges what it is shown: a signature, the ticket of an approval, a ticket of its own.

ghost use Rattle.std.specs.Prelude.{◌≡◌};
ghost use Rattle.tpm_policy.specs.Judgments as spec;

use tpm_auth::{auth_ticket, check_ticket, sign, signed_hash};
use tpm_rules::approval_hash;
use tpol_base::constants::{TPM_ST_AUTH_SECRET, TPM_ST_AUTH_SIGNED};
use tpol_base::handle::TPM_RH_OWNER;
use tpol_base::{Digest32, Name};

/// Whether a signature for PolicySigned is the key's, over the nonce, the expiration in seconds, cpHashA and
/// policyRef.
pub fn is_signature(
    secret: &[u8],
    nonce: &[u8],
    expiration: i32,
    cp_hash: Option<Digest32>,
    policy_ref: &[u8],
    signature: &Digest32,
) -> bool
    ensures { result ≡ spec.is_signature secret.now nonce.now expiration cp_hash policy_ref.now
        signature.now }
{
    let hash = signed_hash(
        nonce,
        expiration,
        Digest32::optional_bytes(&cp_hash),
        policy_ref,
    );
    *signature == sign(secret, &hash)
}

/// Whether the digest of a ticket for PolicyAuthorize is the one that a machine with this proof made for the
/// approval and the key.
pub fn is_approval_ticket(
    proof: &Digest32,
    approved: &Digest32,
    policy_ref: &[u8],
    key: &Name,
    ticket: &[u8],
) -> bool
    ensures { result ≡ spec.is_approval_ticket proof.now approved.now policy_ref.now key.now
        ticket.now }
{
    check_ticket(proof, &approval_hash(approved, policy_ref), key, ticket)
}

/// A ticket that PolicyTicket takes, and what it stands for: the deadline in milliseconds, the cpHashA, the
/// policyRef and the entity's Name; its tag, its hierarchy and its digest.
#[derive(Clone, Copy)]
pub struct AuthTicket<'a> {
    pub deadline: u64,
    pub cp_hash: Option<Digest32>,
    pub policy_ref: &'a [u8],
    pub key: Name,
    pub tag: u16,
    pub hierarchy: u32,
    pub digest: &'a [u8],
}

/// Whether a ticket is one of PolicySecret or PolicySigned in the owner hierarchy, and its digest is the one that a
/// machine with this proof makes for its values at this reset count.
pub fn is_auth_ticket(proof: &Digest32, reset_count: u32, ticket: &AuthTicket<'_>) -> bool
    ensures { result ≡ spec.is_auth_ticket proof.now reset_count ticket.now.deadline
        ticket.now.cp_hash ticket.now.policy_ref.now
        ticket.now.key ticket.now.tag ticket.now.hierarchy ticket.now.digest.now }
{
    let expected = auth_ticket(
        proof,
        ticket.tag,
        ticket.deadline,
        reset_count,
        Digest32::optional_bytes(&ticket.cp_hash),
        ticket.policy_ref,
        &ticket.key,
    );
    (ticket.tag == TPM_ST_AUTH_SECRET || ticket.tag == TPM_ST_AUTH_SIGNED)
        && ticket.hierarchy == TPM_RH_OWNER
        && ticket.digest == expected.bytes.as_slice()
}
