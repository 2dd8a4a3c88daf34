// What stands in the way of one move.

ghost use Rattle.std.specs.Prelude.{◌≡◌, ◌≤◌, ◌^◌};
ghost use Rattle.tpm_bindings.specs.State.{SessionState};
ghost use Rattle.tpm_rules.specs.Rule.{Breaks};
ghost use Rattle.tpm_rules.specs.Standing.{standing_of};
ghost use Rattle.tpol_choose.specs.Acts.{move_of};
ghost use Rattle.tpol_choose.specs.Lent.{client_of_lent};
ghost use Rattle.tpol_choose.specs.Moves as spec;
ghost use Rattle.tpol_name.specs.Setups.{IsSight};

use crate::Why;
use crate::act::Act;
use crate::answer::answered;
use crate::client::Client;
use crate::commands::policy_authorize::policy_authorize;
use crate::commands::policy_authorize_nv::policy_authorize_nv;
use crate::commands::policy_nv::policy_nv;
use crate::commands::policy_secret::policy_secret;
use crate::commands::policy_signed::policy_signed;
use tpm_pcr::Clock;
use tpm_rules::{
    Standing, policy_command_code_rule, policy_counter_timer_rule, policy_cp_hash_rule,
    policy_duplication_select_rule, policy_locality_rule, policy_name_hash_rule,
    policy_nv_written_rule, policy_or_rule, policy_pcr_rule,
};
use tpol_base::{Blob, Compare, Digest32};
use tpol_name::Sight;
use tpol_tree::Assertion;

// An entity that is not there, a key that is not granted, or the machine's answer to the move's command, in a
// session that stands so.
pub fn check_move(client: &Client<'_>, session: &Standing, act: &Act<'_>) -> Result<(), Why>
    requires sight { IsSight client.now.sight.now }
    requires start { session.now.start ≤ 2 ^ 63 }
    ensures { (state : SessionState) → session.now ≡ standing_of state
        → Breaks result (spec.move_block (client_of_lent client.now) state (move_of act.now)) }
{
    match act {
        Act::Assert(step) => check_assertion(client, session, step.assertion),
        Act::Or(or) => answered(policy_or_rule(session, or.digests)),
        Act::Approve {
            key,
            policy_ref,
            approved,
            signature,
        } => policy_authorize(
            client,
            session,
            key,
            policy_ref.as_slice(),
            approved,
            signature,
        ),
        Act::ApproveNv { index, approved: _ } => policy_authorize_nv(client, session, index),
    }
}

fn check_assertion(
    client: &Client<'_>,
    session: &Standing,
    assertion: &Assertion,
) -> Result<(), Why>
    requires sight { IsSight client.now.sight.now }
    requires start { session.now.start ≤ 2 ^ 63 }
    ensures { (state : SessionState) → session.now ≡ standing_of state
        → Breaks result (spec.assertion_block (client_of_lent client.now) state assertion.now) }
{
    match assertion {
        Assertion::Pcr {
            mask,
            pcr_digest,
            ..
        } => policy_pcr(client, session, *mask, pcr_digest),
        Assertion::Nv {
            index,
            operand,
            offset,
            operation,
        } => policy_nv(client, index, operand.as_slice(), *offset, *operation),
        Assertion::Secret {
            entity,
            cp_hash,
            expiration,
            ..
        } => policy_secret(client, session, entity, *cp_hash, *expiration),
        Assertion::Signed {
            key,
            cp_hash,
            expiration,
            ..
        } => policy_signed(client, session, key, *cp_hash, *expiration),
        Assertion::CounterTimer {
            operand,
            offset,
            operation,
        } => policy_counter_timer(client.sight, operand, *offset, *operation),
        Assertion::CommandCode(_)
        | Assertion::Locality(_)
        | Assertion::CpHash(_)
        | Assertion::NameHash(_)
        | Assertion::NvWritten(_)
        | Assertion::AuthValue
        | Assertion::Password
        | Assertion::PhysicalPresence
        | Assertion::Duplication { .. } => check_plain(session, assertion),
    }
}

// An assertion that only looks at the session.
fn check_plain(session: &Standing, assertion: &Assertion) -> Result<(), Why>
    ensures { (state : SessionState) → session.now ≡ standing_of state
        → Breaks result (spec.plain_block state assertion.now) }
{
    match assertion {
        Assertion::CommandCode(code) => answered(policy_command_code_rule(session, *code)),
        Assertion::Locality(localities) => answered(policy_locality_rule(session, *localities)),
        Assertion::CpHash(digest) => answered(policy_cp_hash_rule(session, digest)),
        Assertion::NameHash(digest) => answered(policy_name_hash_rule(session, digest)),
        Assertion::NvWritten(written) => answered(policy_nv_written_rule(session, *written)),
        Assertion::Duplication { .. } => answered(policy_duplication_select_rule(session)),
        _ => Ok(()),
    }
}

// PolicyPCR with the digest that the policy has (TPM 2.0 Part 3, TPM2_PolicyPCR).
fn policy_pcr(
    client: &Client<'_>,
    session: &Standing,
    mask: u32,
    pcr_digest: &Digest32,
) -> Result<(), Why>
    requires sight { IsSight client.now.sight.now }
    ensures { (state : SessionState) → session.now ≡ standing_of state
        → Breaks result (spec.pcr_block client.now.sight.now state mask pcr_digest.now) }
{
    let selected = client.digest_of_selection(mask);
    let counter = client.sight.pcr_counter;
    answered(policy_pcr_rule(session, counter, &selected, Some(*pcr_digest)))
}

// PolicyCounterTimer (TPM 2.0 Part 3, TPM2_PolicyCounterTimer).
fn policy_counter_timer(
    sight: &Sight,
    operand: &Blob,
    offset: u16,
    operation: Compare,
) -> Result<(), Why>
    ensures { Breaks result (spec.counter_timer_block sight.now operand.now offset operation) }
{
    let clock = Clock {
        time: sight.time,
        reset_count: sight.reset_count,
        restart_count: sight.restart_count,
        safe: sight.safe,
    };
    answered(policy_counter_timer_rule(&clock, operand.as_slice(), offset, operation))
}
