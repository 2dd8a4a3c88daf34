//! PolicyAuthorize (TPM 2.0 Part 3, TPM2_PolicyAuthorize).

ghost use Rattle.std.specs.Prelude.{◌≡◌, ◌<◌, length};
ghost use Rattle.tpm_policy.specs.Asserted.{asserted};
ghost use Rattle.tpm_policy.specs.Judgments.{is_approval_ticket};
ghost use Rattle.tpm_rules.specs.PolicyAuthorize.{policy_authorize_fact, policy_authorize_rule};
ghost use Rattle.tpm_rules.specs.Rule.{Obeys};

use crate::judgments::is_approval_ticket;
use crate::session::add_unbound;
use tpm_rules::policy_authorize_rule;
use tpm_session::Session;
use tpol_base::{Blob, Digest32, Name, Rc};
use tpol_tree::{Fact, Move};

/// Puts the key that approved the session's policy in the place of that policy. The ticket is that of
/// VerifySignature for the approval and the key, under the machine's proof; it is to be empty where its tag or
/// its hierarchy is wrong. Answers TPM_RC_VALUE, parameter 1, where the session's digest is not the approved
/// one, and TPM_RC_VALUE, parameter 4, where the ticket is wrong.
pub fn assert_authorize(
    session: &mut Session,
    event: u32,
    proof: &Digest32,
    approved: Digest32,
    policy_ref: Blob,
    key: Name,
    ticket: &[u8],
) -> Result<(), Rc>
    requires room { length session.old.state.facts < 512 }
    ensures rule { Obeys result
        (policy_authorize_rule session.old.state approved
        (is_approval_ticket proof.now approved policy_ref key ticket.now)) }
    ensures session { session.new
        ≡ asserted (policy_authorize_rule session.old.state approved
        (is_approval_ticket proof.now approved policy_ref key ticket.now))
        session.old (policy_authorize_fact event key policy_ref approved) 0 }
{
    let right = is_approval_ticket(proof, &approved, policy_ref.as_slice(), &key, ticket);
    policy_authorize_rule(&session.standing(), &approved, right)?;
    let act = Move::Approve {
        key,
        policy_ref,
        approved,
        signature: Digest32::ZERO,
    };
    let fact = Fact {
        event,
        act,
        cp_hash: None,
        deadline: None,
    };
    add_unbound(session, fact, 0);
    Ok(())
}
