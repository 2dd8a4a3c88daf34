// PolicySecret (TPM 2.0 Part 3, TPM2_PolicySecret), with the session's nonce.

ghost use Rattle.std.specs.Prelude.{◌≡◌, ◌≤◌, ◌^◌};
ghost use Rattle.tpm_bindings.specs.State.{SessionState};
ghost use Rattle.tpm_rules.specs.Rule.{Breaks, Obeys, or_else};
ghost use Rattle.tpm_rules.specs.PolicySecret.{policy_secret_rule as secret_rule};
ghost use Rattle.tpm_rules.specs.Standing.{standing_of};
ghost use Rattle.tpol_base.specs.declared.command_code.CommandCode.TheVariants as codes;
ghost use Rattle.tpol_choose.specs.Entities.{entity_of_name};
ghost use Rattle.tpol_choose.specs.Lent.{client_of_lent, entity_of_lent};
ghost use Rattle.tpol_choose.specs.Moves as spec;

use crate::Why;
use crate::answer::{answered, password_rule};
use crate::client::Client;
use crate::entity_at::{EntityAt, entity_of_name};
use tpm_rules::{Standing, policy_secret_rule};
use tpol_base::{CommandCode, Digest32, Name, Rc};

pub fn policy_secret(
    client: &Client<'_>,
    session: &Standing,
    entity: &Name,
    cp_hash: Option<Digest32>,
    expiration: i32,
) -> Result<(), Why>
    requires start { session.now.start ≤ 2 ^ 63 }
    ensures { (state : SessionState) → session.now ≡ standing_of state
        → Breaks result (spec.secret_block (client_of_lent client.now) state cp_hash expiration
        (entity_of_name client.now.sight.now entity.now)) }
{
    let Some(found) = entity_of_name(client.sight, entity) else {
        return Err(Why::NoEntity);
    };
    answered(rule(client, session, &found, cp_hash, expiration))
}

// The entity's authorization by password, and then the command's own rules.
fn rule(
    client: &Client<'_>,
    session: &Standing,
    found: &EntityAt<'_>,
    cp_hash: Option<Digest32>,
    expiration: i32,
) -> Result<(), Rc>
    requires start { session.now.start ≤ 2 ^ 63 }
    ensures { (state : SessionState) → session.now ≡ standing_of state
        → Obeys result (or_else (spec.password_rule client.now.grants.now
        (entity_of_lent found.now) codes.PolicySecret)
        (secret_rule state client.now.sight.now.time state.nonce.bytes cp_hash expiration)) }
{
    password_rule(client.grants, found, CommandCode::PolicySecret)?;
    policy_secret_rule(
        session,
        client.sight.time,
        &session.nonce.bytes,
        cp_hash,
        expiration,
    )
}
