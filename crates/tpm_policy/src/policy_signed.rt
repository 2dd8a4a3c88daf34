//! PolicySigned (TPM 2.0 Part 3, TPM2_PolicySigned).

ghost use Rattle.std.specs.Prelude.{◌≡◌, ◌<◌, length};
ghost use Rattle.tpm_policy.specs.Asserted.{asserted};
ghost use Rattle.tpm_policy.specs.Judgments.{is_signature};
ghost use Rattle.tpm_rules.specs.PolicySigned.{policy_signed_fact, policy_signed_rule};
ghost use Rattle.tpm_rules.specs.Rule.{Obeys};

use crate::judgments::is_signature;
use crate::session::add_unbound;
use tpm_rules::{deadline_of, policy_signed_rule};
use tpm_session::Session;
use tpol_base::{Blob, Digest32, Name, Rc};
use tpol_tree::{Assertion, Fact, Move};

/// Ties the session to a key that has signed the nonce, the expiration in seconds, cpHashA and policyRef, at a
/// time in milliseconds; `secret` is the HMAC key. Answers TPM_RC_NONCE, parameter 1, where a nonce is given
/// that is not the session's, TPM_RC_EXPIRED, parameter 4, where the deadline has passed, TPM_RC_CPHASH where
/// the slot does not take the cpHashA, and TPM_RC_SIGNATURE, parameter 5, where the signature is wrong.
pub fn assert_signed(
    session: &mut Session,
    event: u32,
    key: Name,
    secret: &[u8],
    time: u64,
    nonce: &[u8],
    cp_hash: Option<Digest32>,
    policy_ref: Blob,
    expiration: i32,
    signature: &Digest32,
) -> Result<(), Rc>
    requires room { length session.old.state.facts < 512 }
    ensures rule { Obeys result
        (policy_signed_rule session.old.state time nonce.now cp_hash expiration
        (is_signature secret.now nonce.now expiration cp_hash policy_ref signature.now)) }
    ensures session { session.new
        ≡ asserted (policy_signed_rule session.old.state time nonce.now cp_hash expiration
        (is_signature secret.now nonce.now expiration cp_hash policy_ref signature.now)) session.old
        (policy_signed_fact event session.old.state.start key nonce.now cp_hash policy_ref
        expiration) 0 }
{
    let standing = session.standing();
    let right = is_signature(
        secret,
        nonce,
        expiration,
        cp_hash,
        policy_ref.as_slice(),
        signature,
    );
    policy_signed_rule(&standing, time, nonce, cp_hash, expiration, right)?;
    let assertion = Assertion::Signed {
        key,
        policy_ref,
        cp_hash,
        expiration,
    };
    let fact = Fact {
        event,
        act: Move::Assert(assertion),
        cp_hash,
        deadline: deadline_of(standing.start, nonce, expiration),
    };
    add_unbound(session, fact, 0);
    Ok(())
}
