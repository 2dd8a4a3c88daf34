//! Tickets: what the machine has verified or authorized once, in a form that it knows again. A ticket is an
//! HMAC whose key is the machine's proof, which no command gives out.

ghost use Rattle.std.specs.Prelude.{◌≡◌};
ghost use Rattle.tpm_auth.specs.Tickets.{auth_ticket, is_verified_ticket, verified_ticket};

use tpol_base::constants::TPM_ST_VERIFIED;
use tpol_base::{Digest32, Name};
use tpol_hash::Mac;

/// The ticket of VerifySignature: the HMAC over TPM_ST_VERIFIED, the digest and the key's Name
/// (TPM 2.0 Part 2, TPMT_TK_VERIFIED).
pub fn verified_ticket(proof: &Digest32, digest: &Digest32, key: &Name) -> Digest32
    ensures ticket { result ≡ verified_ticket proof.now digest.now key.now }
{
    let mut mac = Mac::new(&proof.bytes);
    mac.put(&TPM_ST_VERIFIED.to_be_bytes());
    mac.put(&digest.bytes);
    mac.put(key.bytes().as_slice());
    mac.done()
}

/// Whether these bytes are the ticket of VerifySignature for this digest and key.
pub fn check_ticket(proof: &Digest32, digest: &Digest32, key: &Name, given: &[u8]) -> bool
    ensures right { result ≡ is_verified_ticket proof.now digest.now key.now given.now }
{
    given == verified_ticket(proof, digest, key).bytes.as_slice()
}

/// The ticket of PolicySecret (TPM_ST_AUTH_SECRET, 0x8023) and PolicySigned (TPM_ST_AUTH_SIGNED, 0x8025), which
/// PolicyTicket takes in their place: the HMAC over the tag, the deadline in milliseconds, the machine's reset
/// count, cpHashA, policyRef and the entity's Name, each of the last three behind its length. The order is this
/// project's own (compare TPM 2.0 Part 2, TPMT_TK_AUTH).
pub fn auth_ticket(
    proof: &Digest32,
    tag: u16,
    deadline: u64,
    reset_count: u32,
    cp_hash: &[u8],
    policy_ref: &[u8],
    key: &Name,
) -> Digest32
    ensures ticket { result ≡ auth_ticket proof.now tag deadline reset_count cp_hash.now
        policy_ref.now key.now }
{
    let mut mac = Mac::new(&proof.bytes);
    mac.put(&tag.to_be_bytes());
    mac.put(&deadline.to_be_bytes());
    mac.put(&reset_count.to_be_bytes());
    mac.put_sized(cp_hash);
    mac.put_sized(policy_ref);
    mac.put_sized(key.bytes().as_slice());
    mac.done()
}
