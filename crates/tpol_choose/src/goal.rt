// What stands in the way of the goal.

ghost use Rattle.std.specs.Prelude.{◌≡◌, ℕ, Option};
ghost use Rattle.tpm_bindings.specs.State.{SessionState};
ghost use Rattle.tpm_rules.specs.Rule.{Breaks, Obeys, or_else};
ghost use Rattle.tpm_rules.specs.Standing.{standing_of};
ghost use Rattle.tpol_choose.specs.Goals as spec;
ghost use Rattle.tpol_choose.specs.Hashes.{with_hashes};
ghost use Rattle.tpol_choose.specs.Lent.{client_of_lent, entity_of_lent};
ghost use Rattle.tpol_name.specs.Setups.{IsSight};

use crate::Why;
use crate::client::Client;
use crate::entity_at::EntityAt;
use crate::goal_rules::{Judged, judge_goal};
use crate::hashes::{bound_cp_hash, bound_name_hash};
use crate::keys::is_same_block;
use tpm_auth::check_password;
use tpm_bindings::LastAuth;
use tpm_rules::{Standing, Use, check_use};
use tpol_base::response_code::AUTH_UNAVAILABLE;
use tpol_base::{Check, CommandCode, Digest32, Rc};

// That the goal's entity is not there, that no policy session may authorize the goal, the first deferred check that
// this session breaks on it, or the first rule of the goal's own.
pub fn check_goal(client: &Client<'_>, session: &Standing) -> Result<(), Why>
    requires sight { IsSight client.now.sight.now }
    ensures { (state : SessionState) → session.now ≡ standing_of state
        → Breaks result (spec.goal_block (client_of_lent client.now) state) }
{
    match judge_goal(client.sight, client.goal) {
        None => Err(Why::NoEntity),
        Some(goal) => check_judged(client, session, &goal),
    }
}

// The authorization of the goal, and then its own rules.
fn check_judged(client: &Client<'_>, session: &Standing, goal: &Judged<'_>) -> Result<(), Why>
    ensures { (state : SessionState) (own : Option ℕ) → session.now ≡ standing_of state
        → Obeys goal.now.rule own
        → Breaks result (or_else
        (spec.authorization_block (client_of_lent client.now) state (entity_of_lent goal.now.found))
        (spec.own_block own)) }
{
    check_authorization(client, session, &goal.found)?;
    check_rule(goal.rule)
}

// A rule of the goal's own.
fn check_rule(rule: Result<(), Rc>) -> Result<(), Why>
    ensures { (own : Option ℕ) → Obeys rule own → Breaks result (spec.own_block own) }
{
    match rule {
        Ok(()) => Ok(()),
        Err(rc) => Err(Why::GoalRule(rc)),
    }
}

// That a policy session may authorize the goal, and that this one does.
fn check_authorization(
    client: &Client<'_>,
    session: &Standing,
    found: &EntityAt<'_>,
) -> Result<(), Why>
    ensures { (state : SessionState) → session.now ≡ standing_of state
        → Breaks result (spec.authorization_block (client_of_lent client.now) state
        (entity_of_lent found.now)) }
{
    let code = client.goal.code().number();
    if !found.entity.is_policy_available(code) {
        return Err(Why::GoalRule(Rc {
            code: AUTH_UNAVAILABLE,
        }));
    }
    match check_deferred(client, session, found) {
        Ok(()) => Ok(()),
        Err(check) => Err(Why::Deferred(check)),
    }
}

// The deferred checks of the session on the goal.
fn check_deferred(
    client: &Client<'_>,
    session: &Standing,
    found: &EntityAt<'_>,
) -> Result<(), Check>
    ensures { (state : SessionState) → session.now ≡ standing_of state
        → Breaks result (spec.broken_check (client_of_lent client.now) state
        (entity_of_lent found.now)) }
{
    let bindings = &session.bindings;
    let cp_hash = bound_cp_hash(client, bindings);
    let name_hash = bound_name_hash(client, bindings);
    let occasion = goal_use(client, found, cp_hash, name_hash);
    let right = proves(client, found, bindings.last_auth());
    check_use(session, &occasion, found.entity.auth_policy(), right)
}

// The use of the session on the goal, with these hashes.
fn goal_use(
    client: &Client<'_>,
    found: &EntityAt<'_>,
    cp_hash: Digest32,
    name_hash: Digest32,
) -> Use
    ensures { result ≡ with_hashes
        (spec.goal_use (client_of_lent client.now) (entity_of_lent found.now)) cp_hash name_hash }
{
    let sight = client.sight;
    let code = client.goal.code();
    Use {
        code: code.number(),
        duplicate_role: code == CommandCode::Duplicate,
        cp_hash,
        name_hash,
        locality: client.locality,
        presence: sight.presence,
        time: sight.time,
        pcr_counter: sight.pcr_counter,
        written: found.entity.written_state(),
    }
}

// Whether the entity's value is proved with what is granted, as the last PolicyAuthValue or PolicyPassword asks
// for.
fn proves(client: &Client<'_>, found: &EntityAt<'_>, last: LastAuth) -> bool
    ensures { result ≡ spec.proves client.now.grants.now (entity_of_lent found.now) last }
{
    let given = client.grants.secret(found.handle);
    match last {
        LastAuth::Password => check_password(found.entity.auth_value(), given),
        LastAuth::AuthValue => is_right_mac(given, found),
        LastAuth::Neither => true,
    }
}

// Whether the HMAC with a value that is granted is the machine's.
fn is_right_mac(given: &[u8], found: &EntityAt<'_>) -> bool
    ensures { result ≡ spec.is_right_mac given.now (entity_of_lent found.now) }
{
    is_same_block(given, found.entity.auth_value()) && (given.is_empty() || found.is_listed_as_is())
}
