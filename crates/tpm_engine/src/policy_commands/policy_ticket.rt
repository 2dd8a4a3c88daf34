//! PolicyTicket (TPM 2.0 Part 3, TPM2_PolicyTicket).

ghost use Rattle.std.specs.Prelude.{◌≡◌, ◌<◌, length, None};
ghost use Rattle.tpm_engine.specs.PolicyCommands as spec;
ghost use Rattle.tpm_policy.specs.Asserted.{with_one_more};
ghost use Rattle.tpm_rules.specs.PolicyTicket.{policy_ticket_fact};
ghost use Rattle.tpm_rules.specs.Rule.{Obeys};

use tpm_policy::{AuthTicket, assert_ticket, is_auth_ticket};
use tpm_rules::policy_ticket_rule;
use tpm_session::Session;
use tpm_world::World;
use tpol_base::{Blob, Digest32, Name, Rc};
use tpol_wire::Ticket;

// The parameters of a PolicyTicket but for its policyRef.
#[derive(Clone, Copy)]
pub struct PolicyTicket<'a> {
    pub timeout: u64,
    pub cp_hash: Option<Digest32>,
    pub key: Name,
    pub ticket: &'a Ticket,
}

// That the deadline has not passed (TPM_RC_EXPIRED, parameter 1), that the slot takes the cpHashA (TPM_RC_CPHASH),
// and that the ticket is this machine's, for these values and the reset count as it is now (TPM_RC_TICKET,
// parameter 5).
pub fn rule(
    world: &World,
    session: &Session,
    given: &PolicyTicket<'_>,
    policy_ref: &[u8],
) -> Result<(), Rc>
    ensures rule { Obeys result (spec.ticket_rule world.now session.now.state
        given.now.timeout given.now.cp_hash policy_ref.now given.now.key given.now.ticket.now) }
{
    let shown = AuthTicket {
        deadline: given.timeout,
        cp_hash: given.cp_hash,
        policy_ref,
        key: given.key,
        tag: given.ticket.tag,
        hierarchy: given.ticket.hierarchy,
        digest: given.ticket.digest.as_slice(),
    };
    let right = is_auth_ticket(&world.proof(), world.reset_count(), &shown);
    policy_ticket_rule(
        &session.standing(),
        world.time(),
        given.timeout,
        given.cp_hash,
        right,
    )
}

// Takes the ticket in the place of the PolicySecret or PolicySigned that answered it.
pub fn carry_out(
    world: &World,
    session: &mut Session,
    number: u32,
    given: &PolicyTicket<'_>,
    policy_ref: Blob,
)
    requires room { length session.old.state.facts < 512 }
    requires rule { spec.ticket_rule world.now session.old.state
        given.now.timeout given.now.cp_hash policy_ref given.now.key given.now.ticket.now ≡ None }
    ensures session { session.new ≡ with_one_more session.old
        (policy_ticket_fact number given.now.ticket.now.tag given.now.timeout given.now.key
        policy_ref given.now.cp_hash) 0 }
{
    match assert_ticket(
        session,
        number,
        world.time(),
        &world.proof(),
        world.reset_count(),
        given.timeout,
        given.cp_hash,
        policy_ref,
        given.key,
        given.ticket.tag,
        given.ticket.hierarchy,
        given.ticket.digest.as_slice(),
    ) {
        Ok(()) => {}
        Err(_) => unreachable!(),
    }
}
