// The session that a path would make, as rules read it.

ghost use Rattle.std.specs.Prelude.{◌≡◌, ◌≤◌, ◌^◌};
ghost use Rattle.tpm_bindings.specs.Facts as pcr;
ghost use Rattle.tpm_bindings.specs.State.{SessionState};
ghost use Rattle.tpm_rules.specs.Standing.{standing_of};
ghost use Rattle.tpol_choose.specs.Acts.{move_of};
ghost use Rattle.tpol_choose.specs.Facts as spec;
ghost use Rattle.tpol_digest.specs.Digest.{digest_after};
ghost use Rattle.tpol_name.specs.declared.sight.Sight.{Sight as OneSight};

use crate::act::Act;
use crate::assert_move::AssertMove;
use crate::binding::bind_move;
use crate::entity_at::entity_of_name;
use tpm_bindings::Bindings;
use tpm_rules::{Standing, deadline_of};
use tpol_base::{CommandCode, Digest32, Name};
use tpol_digest::{approve_digest, approve_nv_digest, hash_twice, zero_digest};
use tpol_name::Sight;
use tpol_tree::Assertion;

// The session that a path would begin with.
pub fn fresh_session(sight: &Sight) -> Standing
    ensures { result ≡ standing_of (spec.fresh_session sight.now) }
{
    Standing {
        start: sight.time,
        nonce: zero_digest(),
        digest: zero_digest(),
        bindings: Bindings::new(),
        counter: None,
    }
}

// Adds the fact of one more move to the session.
pub fn add_move(session: &mut Standing, sight: &Sight, act: &Act<'_>)
    requires start { session.old.start ≤ 2 ^ 63 }
    ensures start { session.new.start ≡ session.old.start }
    ensures after { (state : SessionState) → session.old ≡ standing_of state
        → session.new ≡ standing_of (spec.session_after sight.now state (move_of act.now)) }
{
    let deadline = deadline_after(session, act);
    bind_move(&mut session.bindings, act, deadline);
    session.digest = digest_after(sight, session.digest, act);
    session.counter = counter_after(sight.pcr_counter, session.counter, act);
}

// The digest with the fact of one more move.
fn digest_after(sight: &Sight, before: Digest32, act: &Act<'_>) -> Digest32
    ensures { (state : SessionState)
        → result ≡ digest_after (spec.fact_of_move sight.now state (move_of act.now)).act before }
{
    match act {
        Act::Assert(step) => digest_after_assertion(sight, before, step),
        Act::Or(or) => or.after,
        Act::Approve {
            key,
            policy_ref,
            ..
        } => approve_digest(key, policy_ref),
        Act::ApproveNv { index, .. } => approve_nv_digest(index),
    }
}

// The same of an assertion. That of PolicySecret has the Name that the entity has as it is.
fn digest_after_assertion(sight: &Sight, before: Digest32, step: &AssertMove<'_>) -> Digest32
    ensures { (state : SessionState)
        → result ≡ digest_after (spec.fact_of_assertion sight.now state step.now.assertion.now).act
        before }
{
    match step.assertion {
        Assertion::Secret {
            entity,
            policy_ref,
            ..
        } => {
            let name = name_in_fact(sight, entity);
            if name == *entity {
                step.digest_from(before)
            } else {
                hash_twice(&before, CommandCode::PolicySecret, &name, policy_ref)
            }
        }
        _ => step.digest_from(before),
    }
}

// The Name that a machine keeps of PolicySecret.
fn name_in_fact(sight: &Sight, name: &Name) -> Name
    ensures { result ≡ spec.name_in_fact sight.now name.now }
{
    match entity_of_name(sight, name) {
        Some(found) => found.name(),
        None => *name,
    }
}

fn counter_after(now: u32, first: Option<u32>, act: &Act<'_>) -> Option<u32>
    ensures { result ≡ spec.counter_after now first (move_of act.now) }
{
    match first {
        Some(first) => Some(first),
        None if is_pcr(act) => Some(now),
        None => None,
    }
}

fn is_pcr(act: &Act<'_>) -> bool
    ensures { result ≡ pcr.is_pcr (move_of act.now) }
{
    match act {
        Act::Assert(step) => matches!(step.assertion, Assertion::Pcr { .. }),
        _ => false,
    }
}

// The cpHashA of a move's fact.
pub fn cp_hash_of(act: &Act<'_>) -> Option<Digest32>
    ensures { result ≡ spec.cp_hash_of (move_of act.now) }
{
    match act {
        Act::Assert(step) => match step.assertion {
            Assertion::Secret { cp_hash, .. } | Assertion::Signed { cp_hash, .. } => *cp_hash,
            _ => None,
        },
        _ => None,
    }
}

// The deadline of a move's fact.
fn deadline_after(session: &Standing, act: &Act<'_>) -> Option<u64>
    requires start { session.now.start ≤ 2 ^ 63 }
    ensures { result ≡ spec.deadline_of_move session.now.start session.now.nonce (move_of act.now) }
{
    match act {
        Act::Assert(step) => match step.assertion {
            Assertion::Secret { expiration, .. } | Assertion::Signed { expiration, .. } => {
                deadline_of(session.start, &session.nonce.bytes, *expiration)
            }
            _ => None,
        },
        _ => None,
    }
}
