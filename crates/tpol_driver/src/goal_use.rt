//! The use of the session on the goal: the goal's command with its authorization, and what its reply has to
//! be.

ghost use Rattle.std.specs.Prelude.{◌≡◌, ◌∷◌, ◌++◌, [], IfOk, List, length};
ghost use Rattle.tpol_driver.specs.GoalUse.{area_of_goal, auth_of_path, bare_fact, bytes_of_reply, goal_command, goal_hmac, goal_secret, is_right_area, mac_key, plan_cp_hash, right_hmac, unless_empty};
ghost use Rattle.std.specs.Str.{bytes_eq};
ghost use Rattle.tpm_auth.specs.SessionMacs.{command_mac};
ghost use Rattle.tpm_bindings.specs.Facts.{last_auth};
ghost use Rattle.tpol_base.specs.CommandCode.{number_of_code};
ghost use Rattle.tpol_goal.specs.Goals.{code_of_goal};
ghost use Rattle.tpol_wire.specs.ReplyReading.{reply_reading};
ghost use Rattle.tpol_driver.specs.Answers.{answer_of};
ghost use Rattle.tpol_driver.specs.Driving.{goal_done, goal_heard};
ghost use Rattle.tpol_driver.specs.Lent.{plan_of};
ghost use Rattle.tpol_tree.specs.declared.facts.Fact.{Fact};

use crate::answer::{Answer, read_answer};
use crate::commands::start_auth_session::caller_nonce;
use crate::end::{End, Stage};
use crate::path_plan::PathPlan;
use crate::session::Session;
use std::alloc::Global;
use tpm_auth::{command_mac, reply_mac};
use tpm_bindings::LastAuth;
use tpol_base::{Blob, Digest32, NoMemory};
use tpol_tree::{Assertion, Move};
use tpol_wire::{AuthArea, Command, Reply, ReplyAuth, rp_hash};

/// The session attributes of the use: continueSession is clear, so that the session ends with it.
const ATTRIBUTES: u8 = 0;

// How the value of the goal's entity is to be proved, as the moves of the path ask for.
fn auth_of_path(moves: &[Move]) -> LastAuth
    ensures { result ≡ auth_of_path moves.now }
{
    let mut auth = LastAuth::Neither;
    for act in moves {
        auth = auth_behind(auth, act);
    }
    auth
}

// The same behind one more move.
fn auth_behind(before: LastAuth, act: &Move) -> LastAuth
    ensures { (facts : List Fact) → before ≡ last_auth facts
        → result ≡ last_auth (facts ++ bare_fact act.now ∷ []) }
{
    match act {
        Move::Assert(Assertion::AuthValue) => LastAuth::AuthValue,
        Move::Assert(Assertion::Password) => LastAuth::Password,
        _ => before,
    }
}

// The value that is granted for the goal's entity, empty where none is.
fn goal_secret<'a>(plan: &PathPlan<'a>) -> &'a [u8]
    ensures { result.now ≡ goal_secret (plan_of plan.now) }
{
    plan.grants.secret(plan.goal.entity())
}

// The key of the HMACs of the command and of its reply.
fn mac_key<'a>(plan: &PathPlan<'a>) -> &'a [u8]
    ensures { result.now ≡ mac_key (plan_of plan.now) }
{
    match auth_of_path(plan.path.moves.as_slice()) {
        LastAuth::AuthValue => goal_secret(plan),
        LastAuth::Neither | LastAuth::Password => &[],
    }
}

// The session's authorization of the use.
fn area_of_goal(
    alloc: Global,
    session: &Session,
    nonce_caller: &Digest32,
    hmac: Blob,
) -> Result<AuthArea, NoMemory>
    ensures { IfOk result (λ area. area ≡ area_of_goal session.now nonce_caller.now hmac) }
{
    Ok(AuthArea {
        session: session.handle,
        nonce: Blob::from_slice(alloc, &nonce_caller.bytes)?,
        attributes: ATTRIBUTES,
        hmac,
    })
}

// The HMAC of the goal's command, empty where its key is.
fn command_hmac(
    alloc: Global,
    plan: &PathPlan<'_>,
    session: &Session,
    nonce_caller: &Digest32,
) -> Result<Blob, NoMemory>
    ensures { IfOk result (λ hmac. hmac ≡ unless_empty (mac_key (plan_of plan.now))
        (command_mac (mac_key (plan_of plan.now))
        (plan_cp_hash (plan_of plan.now)) nonce_caller.now.bytes session.now.nonce 0)) }
{
    let key = mac_key(plan);
    if key.is_empty() {
        return Ok(Blob::new(alloc));
    }
    let cp_hash = plan.goal.cp_hash(plan.directory);
    let mac = command_mac(
        key,
        &cp_hash,
        &nonce_caller.bytes,
        &session.nonce,
        ATTRIBUTES,
    );
    Blob::from_slice(alloc, &mac.bytes)
}

// The field hmac of the goal's command.
fn goal_hmac(
    alloc: Global,
    plan: &PathPlan<'_>,
    session: &Session,
    nonce_caller: &Digest32,
) -> Result<Blob, NoMemory>
    ensures { IfOk result (λ hmac. hmac
        ≡ goal_hmac (plan_of plan.now) session.now nonce_caller.now) }
{
    match auth_of_path(plan.path.moves.as_slice()) {
        LastAuth::Password => Blob::from_slice(alloc, goal_secret(plan)),
        LastAuth::Neither | LastAuth::AuthValue => command_hmac(alloc, plan, session, nonce_caller),
    }
}

/// The goal's command as the run's command with this number.
pub(crate) fn command(
    alloc: Global,
    plan: &PathPlan<'_>,
    session: &Session,
    number: u32,
) -> Result<Command, NoMemory>
    ensures { IfOk result (λ command. command
        ≡ goal_command (plan_of plan.now) session.now number) }
{
    let nonce_caller = caller_nonce(plan.nonce_seed, number);
    let hmac = goal_hmac(alloc, plan, session, &nonce_caller)?;
    let area = area_of_goal(alloc, session, &nonce_caller, hmac)?;
    plan.goal.command(area)
}

// Whether the field hmac of the reply is the right one, for an area with this nonce of 32 bytes.
fn is_right_hmac(
    alloc: Global,
    plan: &PathPlan<'_>,
    number: u32,
    reply: &Reply,
    nonce: &[u8],
    given: &[u8],
) -> Result<bool, NoMemory>
    requires { length nonce.now ≡ 32 }
    ensures { IfOk result (λ right. right
        ≡ bytes_eq given.now (right_hmac (plan_of plan.now) number reply.now nonce.now)) }
{
    let key = mac_key(plan);
    if key.is_empty() {
        return Ok(given.is_empty());
    }
    let hash = rp_hash(alloc, plan.goal.code().number(), reply)?;
    let nonce_caller = caller_nonce(plan.nonce_seed, number);
    let mac = reply_mac(
        key,
        &hash,
        &Digest32::from_slice(nonce),
        &nonce_caller.bytes,
        ATTRIBUTES,
    );
    Ok(given == mac.bytes.as_slice())
}

// Whether the authorization of the goal's reply is right: a nonce of 32 bytes, the attributes of the command,
// and the right hmac.
fn is_right_area(
    alloc: Global,
    plan: &PathPlan<'_>,
    number: u32,
    reply: &Reply,
    area: &ReplyAuth,
) -> Result<bool, NoMemory>
    ensures { IfOk result (λ right. right
        ≡ is_right_area (plan_of plan.now) number reply.now area.now) }
{
    if area.nonce.len() != 32 || area.attributes != ATTRIBUTES {
        return Ok(false);
    }
    is_right_hmac(
        alloc,
        plan,
        number,
        reply,
        area.nonce.as_slice(),
        area.hmac.as_slice(),
    )
}

/// The end that these bytes give as the reply to the goal's command, which was the run's command with this
/// number.
pub(crate) fn hear(
    alloc: Global,
    plan: &PathPlan<'_>,
    number: u32,
    reply: &[u8],
) -> Result<End, NoMemory>
    ensures { IfOk result (λ end. end
        ≡ goal_heard (plan_of plan.now) number
        (answer_of (reply_reading (number_of_code (code_of_goal plan.now.goal.now)) reply.now))) }
{
    match read_answer(alloc, plan.goal.code(), reply)? {
        Answer::Done(reply, area) => done(alloc, plan, number, reply, &area),
        Answer::Denied(rc) => Ok(End::Denied {
            at: Stage::Goal,
            rc,
        }),
        Answer::Malformed => Ok(End::BadReply(Stage::Goal)),
    }
}

// The end that a reply without a refusal gives.
fn done(
    alloc: Global,
    plan: &PathPlan<'_>,
    number: u32,
    reply: Reply,
    area: &Option<ReplyAuth>,
) -> Result<End, NoMemory>
    ensures { IfOk result (λ end. end ≡ goal_done (plan_of plan.now) number reply area.now) }
{
    let Some(area) = area else {
        return Ok(End::BadReply(Stage::Goal));
    };
    if is_right_area(alloc, plan, number, &reply, area)? {
        Ok(End::Served(bytes_of_reply(alloc, reply)?))
    } else {
        Ok(End::BadReply(Stage::Goal))
    }
}

// What the goal's command gave.
fn bytes_of_reply(alloc: Global, reply: Reply) -> Result<Blob, NoMemory>
    ensures { IfOk result (λ bytes. bytes ≡ bytes_of_reply reply) }
{
    match reply {
        Reply::Unseal { bytes } | Reply::NvRead { bytes } | Reply::Duplicate { bytes } => Ok(bytes),
        Reply::Hmac { digest } => Blob::from_slice(alloc, &digest.bytes),
        _ => Ok(Blob::new(alloc)),
    }
}
