//! The start of a run.

ghost use Rattle.std.specs.Prelude.{◌≡◌, ◌≤◌, ◌++◌, [], None, length, IfOk, IfErr};
ghost use Rattle.tpol_driver.specs.Driving.{Moving, Over as StandsOver, Starting, earned_by, hears, sends, start_heard};
ghost use Rattle.tpol_driver.specs.States.{IsNext, IsSent};

use crate::answer::{Answer, read_answer};
use crate::asserting::Asserting;
use crate::commands::start_auth_session;
use crate::end::{End, Stage};
use crate::next::{Next, Over};
use crate::plan::Plan;
use crate::ready::Ready;
use crate::sending::sent_bytes;
use crate::session::Session;
use crate::tickets::Tickets;
use std::alloc::Global;
use std::marker::Model;
use tpol_base::{Blob, CommandCode, NoMemory};
use tpol_wire::Reply;

/// A run before its start.
#[derive(Drop)]
pub struct Planned {
    plan: Plan,
}

impl Model for Planned {
    ghost use Rattle.std.specs.Prelude.{◌≤◌, [], length};
    ghost use Rattle.tpol_driver.specs.Driving.{Driving, Starting};

    ghost Value = { Driving };

    ghost view = { λ p. record { plan = p.plan; standing = Starting; earned = [] } };

    ghost invariant = { λ p. length p.plan.path.moves ≤ 512 };
}

impl Planned {
    /// A run of this plan.
    pub fn new(plan: Plan) -> Planned
        requires { length plan.path.moves ≤ 512 }
        ensures { result ≡ record { plan = plan; standing = Starting; earned = [] } }
    {
        Planned { plan }
    }

    /// The next command: StartAuthSession.
    pub fn next(&self, alloc: Global) -> Result<Blob, NoMemory>
        ensures sends { IfOk result (IsSent (sends self.now.plan self.now.standing)) }
    {
        let command = start_auth_session::command(&self.plan.nonce_seed);
        sent_bytes(alloc, command)
    }

    /// Goes on with the reply. With `NoMemory` the state comes back unchanged.
    pub fn take(self, alloc: Global, reply: &[u8]) -> Result<Next, (Planned, NoMemory)>
        ensures next { IfOk result
            (IsNext self.plan (self.earned ++ earned_by self.plan self.standing reply.now)
            (hears self.plan self.standing reply.now)) }
        ensures back { IfErr result (λ refused. refused.0 ≡ self) }
    {
        match read_answer(alloc, CommandCode::StartAuthSession, reply) {
            Ok(answer) => Ok(self.after(alloc, answer)),
            Err(no_memory) => Err((self, no_memory)),
        }
    }

    // The state after this answer.
    fn after(self, alloc: Global, answer: Answer) -> Next
        ensures { IsNext self.plan [] (start_heard answer) result }
    {
        let earned = Tickets::new(alloc);
        let heard = session_of(&answer);
        drop(answer);
        match heard {
            Ok(session) => self.started(session, earned),
            Err(end) => Next::Over(Over { end, earned }),
        }
    }

    // The state at the front of the path.
    fn started(self, session: Session, earned: Tickets) -> Next
        ensures { IsNext self.plan earned (Moving session 1 None 0) result }
    {
        let Planned { plan } = self;
        if plan.path.moves.is_empty() {
            Next::Ready(Ready::new(plan, session, 1, earned))
        } else {
            Next::Asserting(Asserting::new(plan, session, earned))
        }
    }
}

// The session that was started, or the end where none was.
fn session_of(answer: &Answer) -> Result<Session, End>
    ensures started { IfOk result (λ session. start_heard answer.now ≡ Moving session 1 None 0) }
    ensures ends { IfErr result (λ end. start_heard answer.now ≡ StandsOver end) }
{
    match answer {
        Answer::Done(Reply::StartAuthSession { session, nonce }, _) => Ok(Session {
            handle: *session,
            nonce: *nonce,
        }),
        Answer::Denied(rc) => Err(End::Denied {
            at: Stage::Start,
            rc: *rc,
        }),
        Answer::Done(..) | Answer::Malformed => Err(End::BadReply(Stage::Start)),
    }
}
