//! The start of a blind run.

ghost use Rattle.std.specs.Prelude.{◌≡◌, ◌≤◌, All, length, replicate, IfOk, IfErr};
ghost use Rattle.tpol_driver.specs.Blind.{Over as StandsOver, Starting, blind_hears, blind_sends, blind_start_heard, first_try, tried_from};
ghost use Rattle.tpol_driver.specs.BlindStates.{IsBlindNext, IsBlindSent};
ghost use Rattle.tpol_driver.specs.declared.blind_end.Tried.TheVariants.{Skipped};
ghost use Rattle.tpol_driver.specs.declared.blind_plan.BlindPlan.{BlindPlan as BlindPlanOf};

use crate::answer::{Answer, read_answer};
use crate::attempt::Attempt;
use crate::blind_closing::BlindClosing;
use crate::blind_end::{BlindEnd, Tried, Tries};
use crate::blind_next::{BlindNext, BlindOver};
use crate::blind_plan::BlindPlan;
use crate::commands::start_auth_session;
use crate::end::Stage;
use crate::sending::sent_bytes;
use crate::session::Session;
use crate::tries::stands_before;
use std::alloc::Global;
use std::marker::Model;
use tpol_base::{Blob, CommandCode, NoMemory};
use tpol_wire::Reply;

/// A blind run before its start.
#[derive(Drop)]
pub struct BlindStart {
    plan: BlindPlan,
    tries: Tries,
}

impl Model for BlindStart {
    ghost use Rattle.std.specs.Prelude.{◌≡◌};
    ghost use Rattle.tpol_driver.specs.Blind.{BlindDriving, Starting, none_tried};
    ghost use Rattle.tpol_driver.specs.Attempts.{AreFewPaths};

    ghost Value = { BlindDriving };

    ghost view = { λ s. record { plan = s.plan; standing = Starting } };

    ghost invariant = { λ s. (s.tries ≡ none_tried s.plan) × AreFewPaths s.plan };
}

impl BlindStart {
    /// A run that tries the paths of this plan. What it takes memory for here is the list of what becomes of each;
    /// with `NoMemory` the plan comes back unchanged.
    pub fn new(alloc: Global, plan: BlindPlan) -> Result<BlindStart, (BlindPlan, NoMemory)>
        requires paths { length plan.paths ≤ 64 }
        requires moves { All (λ path. length path.moves ≤ 512) plan.paths }
        ensures start { IfOk result (λ start. start ≡ record { plan = plan; standing = Starting }) }
        ensures back { IfErr result (λ refused. refused.0 ≡ plan) }
    {
        match untried(alloc, plan.paths.len()) {
            Ok(tries) => Ok(BlindStart { plan, tries }),
            Err(no_memory) => Err((plan, no_memory)),
        }
    }

    /// The next command: StartAuthSession.
    pub fn next(&self, alloc: Global) -> Result<Blob, NoMemory>
        ensures sends { IfOk result (IsBlindSent (blind_sends self.now.plan self.now.standing)) }
    {
        let command = start_auth_session::command(&self.plan.nonce_seed);
        sent_bytes(alloc, command)
    }

    /// Goes on with the reply. With `NoMemory` the state comes back unchanged.
    pub fn take(self, alloc: Global, reply: &[u8]) -> Result<BlindNext, (BlindStart, NoMemory)>
        ensures next { IfOk result
            (IsBlindNext self.plan (blind_hears self.plan self.standing reply.now)) }
        ensures back { IfErr result (λ refused. refused.0 ≡ self) }
    {
        match read_answer(alloc, CommandCode::StartAuthSession, reply) {
            Ok(answer) => Ok(self.after(answer)),
            Err(no_memory) => Err((self, no_memory)),
        }
    }

    // The state after this answer.
    fn after(self, answer: Answer) -> BlindNext
        ensures { IsBlindNext self.plan (blind_start_heard self.plan answer) result }
    {
        let heard = session_of(&answer);
        drop(answer);
        match heard {
            Ok(session) => self.started(session),
            Err(end) => BlindNext::Over(BlindOver { end }),
        }
    }

    // The state at the front of the first path that is tried.
    fn started(self, session: Session) -> BlindNext
        ensures { IsBlindNext self.plan
            (first_try self.plan session (tried_from self.plan 0)) result }
    {
        let BlindStart { plan, tries } = self;
        match plan.tried_from(0) {
            Some(place) => {
                let attempt = Attempt {
                    plan,
                    session,
                    sent: 1,
                    place,
                    tries,
                };
                stands_before(attempt, 0)
            }
            None => BlindNext::Closing(BlindClosing::new(
                plan,
                session.handle,
                BlindEnd::NoBranch(tries),
            )),
        }
    }
}

// The session that was started, or the end where none was.
fn session_of(answer: &Answer) -> Result<Session, BlindEnd>
    ensures started { IfOk result (λ session. (plan : BlindPlanOf)
        → blind_start_heard plan answer.now ≡ first_try plan session (tried_from plan 0)) }
    ensures ends { IfErr result (λ end. (plan : BlindPlanOf)
        → blind_start_heard plan answer.now ≡ StandsOver end) }
{
    match answer {
        Answer::Done(Reply::StartAuthSession { session, nonce }, _) => Ok(Session {
            handle: *session,
            nonce: *nonce,
        }),
        Answer::Denied(rc) => Err(BlindEnd::Denied {
            at: Stage::Start,
            rc: *rc,
        }),
        Answer::Done(..) | Answer::Malformed => Err(BlindEnd::BadReply(Stage::Start)),
    }
}

// So many paths of which none is tried yet.
fn untried(alloc: Global, count: usize) -> Result<Tries, NoMemory>
    ensures { IfOk result (λ tries. tries ≡ replicate count Skipped) }
{
    Ok(Tries::from_vec(vec![in alloc; Tried::Skipped; count]?))
}
