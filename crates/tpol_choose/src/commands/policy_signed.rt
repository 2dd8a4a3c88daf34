// PolicySigned (TPM 2.0 Part 3, TPM2_PolicySigned), with the session's nonce, signed with the key that is
// granted.

ghost use Rattle.std.specs.Prelude.{◌≡◌, ◌≤◌, ◌^◌};
ghost use Rattle.tpm_bindings.specs.State.{SessionState};
ghost use Rattle.tpm_rules.specs.Objects.{signing_key_rule as key_rule};
ghost use Rattle.tpm_rules.specs.PolicySigned.{policy_signed_rule as signed_rule};
ghost use Rattle.tpm_rules.specs.Rule.{Breaks, Obeys, or_else};
ghost use Rattle.tpm_rules.specs.Standing.{standing_of};
ghost use Rattle.tpol_choose.specs.Keys as keys;
ghost use Rattle.tpol_choose.specs.Lent.{client_of_lent};
ghost use Rattle.tpol_choose.specs.Moves as spec;
ghost use Rattle.tpol_goal.specs.Entities.{object_in_sight};

use crate::Why;
use crate::answer::answered;
use crate::client::Client;
use crate::keys::is_same_block;
use tpm_rules::{Standing, policy_signed_rule, signing_key_rule};
use tpol_base::{Digest32, Name, Rc};
use tpol_goal::object_in_sight;
use tpol_name::ObjectEntry;

pub fn policy_signed(
    client: &Client<'_>,
    session: &Standing,
    key: &Name,
    cp_hash: Option<Digest32>,
    expiration: i32,
) -> Result<(), Why>
    requires start { session.now.start ≤ 2 ^ 63 }
    ensures { (state : SessionState) → session.now ≡ standing_of state
        → Breaks result (spec.signed_block (client_of_lent client.now) state cp_hash expiration
        (object_in_sight client.now.sight.now key.now)) }
{
    let Some(object) = object_in_sight(client.sight, key) else {
        return Err(Why::NoEntity);
    };
    let Some(granted) = client.grants.key(object.handle) else {
        return Err(Why::NoKey);
    };
    answered(rule(client, session, object, granted, cp_hash, expiration))
}

// That the object is an HMAC key that may sign, and then the command's own rules.
fn rule(
    client: &Client<'_>,
    session: &Standing,
    object: &ObjectEntry,
    key: &[u8],
    cp_hash: Option<Digest32>,
    expiration: i32,
) -> Result<(), Rc>
    requires start { session.now.start ≤ 2 ^ 63 }
    ensures { (state : SessionState) → session.now ≡ standing_of state
        → Obeys result (or_else (key_rule object.now.public)
        (signed_rule state client.now.sight.now.time state.nonce.bytes cp_hash expiration
        (keys.is_same_block key.now object.now.secret))) }
{
    signing_key_rule(&object.public)?;
    let right = is_same_block(key, object.secret.as_slice());
    policy_signed_rule(
        session,
        client.sight.time,
        &session.nonce.bytes,
        cp_hash,
        expiration,
        right,
    )
}
