//! Signatures of HMAC keys, and what PolicySigned has signed.

ghost use Rattle.std.specs.Prelude.{◌≡◌};
ghost use Rattle.tpm_auth.specs.Signatures.{signature_of, signed_hash};

use tpol_base::Digest32;
use tpol_hash::{Hasher, Mac};

/// The signature of a digest by an HMAC key: their HMAC (TPM 2.0 Part 2, TPMT_HA; Part 3, TPM2_Sign).
pub fn sign(key: &[u8], digest: &Digest32) -> Digest32
    ensures signature { result ≡ signature_of key.now digest.now }
{
    let mut mac = Mac::new(key);
    mac.put(&digest.bytes);
    mac.done()
}

/// What a signature for PolicySigned is over: the hash of nonceTPM, the expiration in four bytes, cpHashA
/// and policyRef (TPM 2.0 Part 3, TPM2_PolicySigned, aHash). The nonce and cpHashA are empty where the
/// command's are.
pub fn signed_hash(nonce_tpm: &[u8], expiration: i32, cp_hash: &[u8], policy_ref: &[u8]) -> Digest32
    ensures hash { result ≡ signed_hash nonce_tpm.now expiration cp_hash.now policy_ref.now }
{
    let mut hasher = Hasher::new();
    hasher.put(nonce_tpm);
    hasher.put(&expiration.to_be_bytes());
    hasher.put(cp_hash);
    hasher.put(policy_ref);
    hasher.done()
}
