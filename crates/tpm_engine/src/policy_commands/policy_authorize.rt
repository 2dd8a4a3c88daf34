//! PolicyAuthorize (TPM 2.0 Part 3, TPM2_PolicyAuthorize).

ghost use Rattle.std.specs.Prelude.{◌≡◌, ◌<◌, length, None};
ghost use Rattle.tpm_engine.specs.PolicyCommands as spec;
ghost use Rattle.tpm_policy.specs.Asserted.{with_one_more};
ghost use Rattle.tpm_rules.specs.PolicyAuthorize.{policy_authorize_fact};
ghost use Rattle.tpm_rules.specs.Rule.{Obeys};

use tpm_policy::{assert_authorize, is_approval_ticket};
use tpm_rules::policy_authorize_rule;
use tpm_session::Session;
use tpm_world::World;
use tpol_base::constants::TPM_ST_VERIFIED;
use tpol_base::handle::TPM_RH_OWNER;
use tpol_base::{Blob, Digest32, Name, Rc};
use tpol_wire::Ticket;

// The parameters of a PolicyAuthorize but for its policyRef.
#[derive(Clone, Copy)]
pub struct PolicyAuthorize<'a> {
    pub approved: Digest32,
    pub key: Name,
    pub ticket: &'a Ticket,
}

// That the session's digest is the approved one (TPM_RC_VALUE, parameter 1), and that the ticket is this machine's
// for the approval and the key (TPM_RC_VALUE, parameter 4).
pub fn rule(
    world: &World,
    session: &Session,
    given: &PolicyAuthorize<'_>,
    policy_ref: &[u8],
) -> Result<(), Rc>
    ensures rule { Obeys result (spec.authorize_rule world.now session.now.state
        given.now.approved policy_ref.now given.now.key given.now.ticket.now) }
{
    let digest = verified_digest(given.ticket);
    let right = is_approval_ticket(
        &world.proof(),
        &given.approved,
        policy_ref,
        &given.key,
        digest,
    );
    policy_authorize_rule(&session.standing(), &given.approved, right)
}

// Puts the key that approved the session's policy in the place of that policy.
pub fn carry_out(
    world: &World,
    session: &mut Session,
    number: u32,
    given: &PolicyAuthorize<'_>,
    policy_ref: Blob,
)
    requires room { length session.old.state.facts < 512 }
    requires rule { spec.authorize_rule world.now session.old.state
        given.now.approved policy_ref given.now.key given.now.ticket.now ≡ None }
    ensures session { session.new ≡ with_one_more session.old
        (policy_authorize_fact number given.now.key policy_ref given.now.approved) 0 }
{
    match assert_authorize(
        session,
        number,
        &world.proof(),
        given.approved,
        policy_ref,
        given.key,
        verified_digest(given.ticket),
    ) {
        Ok(()) => {}
        Err(_) => unreachable!(),
    }
}

// The digest of a ticket that has the tag of VerifySignature and the owner hierarchy, else no bytes.
fn verified_digest(ticket: &Ticket) -> &[u8]
    ensures { result.now ≡ spec.verified_digest ticket.now }
{
    if ticket.tag == TPM_ST_VERIFIED && ticket.hierarchy == TPM_RH_OWNER {
        ticket.digest.as_slice()
    } else {
        &[]
    }
}
