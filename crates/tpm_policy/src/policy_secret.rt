//! PolicySecret (TPM 2.0 Part 3, TPM2_PolicySecret).

ghost use Rattle.std.specs.Prelude.{◌≡◌, ◌<◌, length};
ghost use Rattle.tpm_policy.specs.Asserted.{asserted};
ghost use Rattle.tpm_rules.specs.PolicySecret.{policy_secret_fact, policy_secret_rule};
ghost use Rattle.tpm_rules.specs.Rule.{Obeys};

use crate::session::add_unbound;
use tpm_rules::{deadline_of, policy_secret_rule};
use tpm_session::Session;
use tpol_base::{Blob, Digest32, Name, Rc};
use tpol_tree::{Assertion, Fact, Move};

/// Ties the session to an entity for which the command was authorized before the call, by the entity's authorization
/// value or by its policy, at a time in milliseconds; the expiration is in seconds. Answers TPM_RC_NONCE,
/// parameter 1, where a nonce is given that is not the session's, TPM_RC_EXPIRED, parameter 4, where the deadline
/// has passed, and TPM_RC_CPHASH where the slot does not take the cpHashA.
pub fn assert_secret(
    session: &mut Session,
    event: u32,
    entity: Name,
    time: u64,
    nonce: &[u8],
    cp_hash: Option<Digest32>,
    policy_ref: Blob,
    expiration: i32,
) -> Result<(), Rc>
    requires room { length session.old.state.facts < 512 }
    ensures rule { Obeys result
        (policy_secret_rule session.old.state time nonce.now cp_hash expiration) }
    ensures session { session.new
        ≡ asserted (policy_secret_rule session.old.state time nonce.now cp_hash expiration)
        session.old
        (policy_secret_fact event session.old.state.start entity nonce.now cp_hash policy_ref
        expiration) 0 }
{
    let standing = session.standing();
    policy_secret_rule(&standing, time, nonce, cp_hash, expiration)?;
    let assertion = Assertion::Secret {
        entity,
        policy_ref,
        cp_hash,
        expiration,
    };
    let fact = Fact {
        event,
        act: Move::Assert(assertion),
        cp_hash,
        deadline: deadline_of(standing.start, nonce, expiration),
    };
    add_unbound(session, fact, 0);
    Ok(())
}
