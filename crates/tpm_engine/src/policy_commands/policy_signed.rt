//! PolicySigned (TPM 2.0 Part 3, TPM2_PolicySigned).

ghost use Rattle.std.specs.Prelude.{◌≡◌, ◌<◌, ◌≤◌, ◌^◌, length, None, IfOk};
ghost use Rattle.tpm_engine.specs.PolicyCommands as spec;
ghost use Rattle.tpm_policy.specs.Asserted.{with_one_more};
ghost use Rattle.tpm_rules.specs.PolicySigned.{policy_signed_fact};
ghost use Rattle.tpm_rules.specs.Rule.{Obeys};
ghost use Rattle.tpm_world.specs.Entities.{name_at};

use super::ticket::{ticket_of, timeout_of};
use std::alloc::Global;
use tpm_policy::{assert_signed, is_signature};
use tpm_rules::{policy_signed_rule, signing_key_rule};
use tpm_session::Session;
use tpm_world::{World, missing_object};
use tpol_base::constants::TPM_ST_AUTH_SIGNED;
use tpol_base::{Blob, Digest32, NoMemory, Rc};
use tpol_wire::Reply;

// The parameters of a PolicySigned but for its policyRef.
#[derive(Clone, Copy)]
pub struct PolicySigned<'a> {
    pub key: u32,
    pub nonce: &'a [u8],
    pub cp_hash: Option<Digest32>,
    pub expiration: i32,
    pub signature: Digest32,
}

// That the key is an HMAC key that may sign (TPM_RC_ATTRIBUTES, handle 1); the rules of PolicySecret; and that
// the signature is the key's (TPM_RC_SIGNATURE, parameter 5).
pub fn rule(
    world: &World,
    session: &Session,
    given: &PolicySigned<'_>,
    policy_ref: &[u8],
) -> Result<(), Rc>
    ensures rule { Obeys result (spec.signed_rule world.now session.now.state given.now.key
        given.now.nonce.now given.now.cp_hash policy_ref.now given.now.expiration
        given.now.signature) }
{
    let Some(object) = world.object(given.key) else {
        return Err(missing_object());
    };
    signing_key_rule(&object.public)?;
    let right = is_signature(
        object.secret.as_slice(),
        given.nonce,
        given.expiration,
        given.cp_hash,
        policy_ref,
        &given.signature,
    );
    policy_signed_rule(
        &session.standing(),
        world.time(),
        given.nonce,
        given.cp_hash,
        given.expiration,
        right,
    )
}

// Ties the session to the key.
pub fn carry_out(
    world: &World,
    session: &mut Session,
    number: u32,
    given: &PolicySigned<'_>,
    policy_ref: Blob,
)
    requires room { length session.old.state.facts < 512 }
    requires rule { spec.signed_rule world.now session.old.state given.now.key
        given.now.nonce.now given.now.cp_hash policy_ref given.now.expiration given.now.signature
        ≡ None }
    ensures session { session.new ≡ with_one_more session.old
        (policy_signed_fact number session.old.state.start (name_at world.now given.now.key)
        given.now.nonce.now given.now.cp_hash policy_ref given.now.expiration) 0 }
{
    let Some(object) = world.object(given.key) else {
        unreachable!();
    };
    match assert_signed(
        session,
        number,
        world.name_of(given.key),
        object.secret.as_slice(),
        world.time(),
        given.nonce,
        given.cp_hash,
        policy_ref,
        given.expiration,
        &given.signature,
    ) {
        Ok(()) => {}
        Err(_) => unreachable!(),
    }
}

// The deadline and the ticket, where the expiration is negative, on a session that started at this time.
pub fn reply(
    alloc: Global,
    world: &World,
    start: u64,
    given: &PolicySigned<'_>,
    policy_ref: &[u8],
) -> Result<Reply, NoMemory>
    requires early { start ≤ 2 ^ 63 }
    ensures reply { IfOk result (λ reply. reply ≡ spec.signed_reply world.now start
        given.now.key given.now.nonce.now given.now.cp_hash policy_ref.now given.now.expiration) }
{
    let timeout = timeout_of(start, given.nonce, given.expiration);
    let name = world.name_of(given.key);
    let ticket = ticket_of(
        alloc,
        world,
        TPM_ST_AUTH_SIGNED,
        &name,
        given.cp_hash,
        policy_ref,
        timeout,
    )?;
    Ok(Reply::PolicySigned { timeout, ticket })
}
