//! PolicySecret (TPM 2.0 Part 3, TPM2_PolicySecret), whose entity is authorized before.

ghost use Rattle.std.specs.Prelude.{◌≡◌, ◌<◌, ◌≤◌, ◌^◌, length, None, IfOk};
ghost use Rattle.tpm_engine.specs.PolicyCommands as spec;
ghost use Rattle.tpm_policy.specs.Asserted.{with_one_more};
ghost use Rattle.tpm_rules.specs.PolicySecret.{policy_secret_fact, policy_secret_rule};
ghost use Rattle.tpm_rules.specs.Rule.{Obeys};
ghost use Rattle.tpm_world.specs.Entities.{name_at};

use super::ticket::{ticket_of, timeout_of};
use std::alloc::Global;
use tpm_policy::assert_secret;
use tpm_rules::policy_secret_rule;
use tpm_session::Session;
use tpm_world::World;
use tpol_base::constants::TPM_ST_AUTH_SECRET;
use tpol_base::{Blob, Digest32, NoMemory, Rc};
use tpol_wire::Reply;

// The parameters of a PolicySecret but for its policyRef.
#[derive(Clone, Copy)]
pub struct PolicySecret<'a> {
    pub entity: u32,
    pub nonce: &'a [u8],
    pub cp_hash: Option<Digest32>,
    pub expiration: i32,
}

// That a nonce which is given is the session's (TPM_RC_NONCE, parameter 1), that the deadline has not passed
// (TPM_RC_EXPIRED, parameter 4), and that the slot takes the cpHashA (TPM_RC_CPHASH).
pub fn rule(world: &World, session: &Session, given: &PolicySecret<'_>) -> Result<(), Rc>
    ensures rule { Obeys result (policy_secret_rule session.now.state world.now.time
        given.now.nonce.now given.now.cp_hash given.now.expiration) }
{
    policy_secret_rule(
        &session.standing(),
        world.time(),
        given.nonce,
        given.cp_hash,
        given.expiration,
    )
}

// Ties the session to the entity.
pub fn carry_out(
    world: &World,
    session: &mut Session,
    number: u32,
    given: &PolicySecret<'_>,
    policy_ref: Blob,
)
    requires room { length session.old.state.facts < 512 }
    requires rule { policy_secret_rule session.old.state world.now.time
        given.now.nonce.now given.now.cp_hash given.now.expiration ≡ None }
    ensures session { session.new ≡ with_one_more session.old
        (policy_secret_fact number session.old.state.start (name_at world.now given.now.entity)
        given.now.nonce.now given.now.cp_hash policy_ref given.now.expiration) 0 }
{
    match assert_secret(
        session,
        number,
        world.name_of(given.entity),
        world.time(),
        given.nonce,
        given.cp_hash,
        policy_ref,
        given.expiration,
    ) {
        Ok(()) => {}
        Err(_) => unreachable!(),
    }
}

// The deadline and the ticket, where the expiration is negative, on a session that started at this time.
pub fn reply(
    alloc: Global,
    world: &World,
    start: u64,
    given: &PolicySecret<'_>,
    policy_ref: &[u8],
) -> Result<Reply, NoMemory>
    requires early { start ≤ 2 ^ 63 }
    ensures reply { IfOk result (λ reply. reply ≡ spec.secret_reply world.now start
        given.now.entity given.now.nonce.now given.now.cp_hash policy_ref.now
        given.now.expiration) }
{
    let timeout = timeout_of(start, given.nonce, given.expiration);
    let name = world.name_of(given.entity);
    let ticket = ticket_of(
        alloc,
        world,
        TPM_ST_AUTH_SECRET,
        &name,
        given.cp_hash,
        policy_ref,
        timeout,
    )?;
    Ok(Reply::PolicySecret { timeout, ticket })
}
