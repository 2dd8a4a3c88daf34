//! Deadlines of PolicySecret and PolicySigned, and the nonce that ties them to a session.

ghost use Rattle.std.specs.Prelude.{◌≡◌, ◌^◌, ◌≤◌};
ghost use Rattle.tpm_rules.specs.Deadline as spec;

use tpol_base::Digest32;

/// The time in milliseconds after which an authorization no longer holds, `None` for an expiration of 0. The
/// expiration is in seconds, and a negative one counts by its size; with a nonce it counts from the session's
/// start, without one from time 0 (TPM 2.0 Part 3, TPM2_PolicySigned, the parameter expiration).
pub fn deadline_of(start: u64, nonce: &[u8], expiration: i32) -> Option<u64>
    requires start { start ≤ 2 ^ 63 }
    ensures deadline { result ≡ spec.deadline_of start nonce.now expiration }
{
    let seconds = expiration.unsigned_abs();
    if seconds == 0 {
        return None;
    }
    let from = if nonce.is_empty() { 0 } else { start };
    Some(from + 1000 * u64::from(seconds))
}

// Whether a nonce is the session's, or is left out.
pub fn is_nonce_or_none(session: &Digest32, nonce: &[u8]) -> bool
    ensures { result ≡ spec.is_nonce_or_none session.now nonce.now }
{
    nonce.is_empty() || nonce == session.bytes.as_slice()
}
