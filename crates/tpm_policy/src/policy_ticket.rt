//! PolicyTicket (TPM 2.0 Part 3, TPM2_PolicyTicket).

ghost use Rattle.std.specs.Prelude.{◌≡◌, ◌<◌, length};
ghost use Rattle.tpm_policy.specs.Asserted.{asserted};
ghost use Rattle.tpm_policy.specs.Judgments.{is_auth_ticket};
ghost use Rattle.tpm_rules.specs.PolicyTicket.{assertion_of_ticket, policy_ticket_fact, policy_ticket_rule};
ghost use Rattle.tpm_rules.specs.Rule.{Obeys};

use crate::judgments::{AuthTicket, is_auth_ticket};
use crate::session::add_unbound;
use tpm_rules::policy_ticket_rule;
use tpm_session::Session;
use tpol_base::constants::TPM_ST_AUTH_SECRET;
use tpol_base::{Blob, Digest32, Name, Rc};
use tpol_tree::{Assertion, Fact, Move};

/// Takes a ticket in the place of the PolicySecret (TPM_ST_AUTH_SECRET, 0x8023) or PolicySigned
/// (TPM_ST_AUTH_SIGNED, 0x8025) that answered it; times are in milliseconds. Answers TPM_RC_EXPIRED, parameter 1,
/// where the deadline has passed, TPM_RC_CPHASH where the slot does not take the cpHashA, and TPM_RC_TICKET,
/// parameter 5, where the tag is neither of the two, the hierarchy is not the owner's, or `ticket` is not the digest
/// that the machine makes under its proof for these values at this reset count.
pub fn assert_ticket(
    session: &mut Session,
    event: u32,
    time: u64,
    proof: &Digest32,
    reset_count: u32,
    deadline: u64,
    cp_hash: Option<Digest32>,
    policy_ref: Blob,
    key: Name,
    tag: u16,
    hierarchy: u32,
    ticket: &[u8],
) -> Result<(), Rc>
    requires room { length session.old.state.facts < 512 }
    ensures rule { Obeys result (policy_ticket_rule session.old.state time deadline cp_hash
        (is_auth_ticket proof.now reset_count deadline cp_hash policy_ref key tag hierarchy
        ticket.now)) }
    ensures session { session.new
        ≡ asserted (policy_ticket_rule session.old.state time deadline cp_hash
        (is_auth_ticket proof.now reset_count deadline cp_hash policy_ref key tag hierarchy
        ticket.now)) session.old
        (policy_ticket_fact event tag deadline key policy_ref cp_hash) 0 }
{
    let shown = AuthTicket {
        deadline,
        cp_hash,
        policy_ref: policy_ref.as_slice(),
        key,
        tag,
        hierarchy,
        digest: ticket,
    };
    let right = is_auth_ticket(proof, reset_count, &shown);
    policy_ticket_rule(&session.standing(), time, deadline, cp_hash, right)?;
    let fact = Fact {
        event,
        act: Move::Assert(assertion_of_ticket(tag, key, policy_ref, cp_hash)),
        cp_hash,
        deadline: Some(deadline),
    };
    add_unbound(session, fact, 0);
    Ok(())
}

// The assertion that a ticket of this tag stands for.
fn assertion_of_ticket(
    tag: u16,
    key: Name,
    policy_ref: Blob,
    cp_hash: Option<Digest32>,
) -> Assertion
    ensures { result ≡ assertion_of_ticket tag key policy_ref cp_hash }
{
    if tag == TPM_ST_AUTH_SECRET {
        Assertion::Secret {
            entity: key,
            policy_ref,
            cp_hash,
            expiration: 0,
        }
    } else {
        Assertion::Signed {
            key,
            policy_ref,
            cp_hash,
            expiration: 0,
        }
    }
}
