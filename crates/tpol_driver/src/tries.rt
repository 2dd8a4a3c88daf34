//! The tries of a blind run: where a move, the goal, or a try's end leads to.

ghost use Rattle.std.specs.Prelude.{◌≡◌, ◌<◌, ◌≤◌, ◌+◌, ◌*◌, None, length, slice_set};
ghost use Rattle.tpol_driver.specs.Attempts.{most_sent};
ghost use Rattle.tpol_driver.specs.Blind.{Closing, Trying, next_try, plan_at, tried, tried_from, tries_on};
ghost use Rattle.tpol_driver.specs.BlindStates.{IsBlindNext};
ghost use Rattle.tpol_driver.specs.Underway.{most_before};
ghost use Rattle.tpol_driver.specs.declared.blind_end.Tried.TheVariants.{Refused};

use crate::attempt::Attempt;
use crate::blind_again::BlindAgain;
use crate::blind_asserting::BlindAsserting;
use crate::blind_closing::BlindClosing;
use crate::blind_end::{BlindEnd, Tried, Tries};
use crate::blind_next::{BlindNext, BlindOver};
use crate::blind_ready::BlindReady;
use crate::end::{End, Stage};
use crate::step::Heard;
use tpol_base::Rc;

/// The state with this count of moves done: before the next one, or before the goal.
pub(crate) fn stands_before(attempt: Attempt, done: usize) -> BlindNext
    requires within { done ≤ length (plan_at attempt.plan attempt.place).path.moves }
    requires few { attempt.sent ≤ most_sent attempt.place done None }
    ensures { IsBlindNext attempt.plan
        (Trying attempt.session attempt.sent attempt.place None done attempt.tries) result }
{
    if done == attempt.path().moves.len() {
        BlindNext::Ready(BlindReady::new(attempt))
    } else {
        BlindNext::Asserting(BlindAsserting::new(attempt, None, done))
    }
}

/// The state after PolicyRestart: the path begins.
pub(crate) fn restarted(attempt: Attempt) -> BlindNext
    requires { attempt.sent ≤ 1026 * attempt.place }
    ensures { IsBlindNext attempt.plan
        (Trying attempt.session (attempt.sent + 1) attempt.place None 0 attempt.tries) result }
{
    stands_before(attempt.after_command(), 0)
}

/// The state after what was heard of a move's command.
pub(crate) fn goes_on(attempt: Attempt, done: usize, heard: Heard) -> BlindNext
    requires left { done < length (plan_at attempt.plan attempt.place).path.moves }
    requires few { attempt.sent ≤ 1026 * attempt.place + 2 * done + most_before heard }
    ensures { IsBlindNext attempt.plan
        (tries_on attempt.plan attempt.session attempt.sent attempt.place done attempt.tries heard)
        result }
{
    let attempt = attempt.after_command();
    match heard {
        Heard::Verified(ticket) => BlindNext::Asserting(BlindAsserting::new(
            attempt,
            Some(ticket),
            done,
        )),
        Heard::Accepted => stands_before(attempt, done + 1),
        Heard::Failed(end) => ended(attempt, end),
    }
}

/// The state after the goal's command, whose end this is.
pub(crate) fn after_goal(attempt: Attempt, end: End) -> BlindNext
    requires { attempt.sent < 1026 * (attempt.place + 1) }
    ensures { IsBlindNext attempt.plan
        (tried attempt.plan attempt.session (attempt.sent + 1) attempt.place attempt.tries end)
        result }
{
    ended(attempt.after_command(), end)
}

// The state after a try, which ends so.
fn ended(attempt: Attempt, end: End) -> BlindNext
    requires { attempt.sent ≤ 1026 * (attempt.place + 1) }
    ensures { IsBlindNext attempt.plan
        (tried attempt.plan attempt.session attempt.sent attempt.place attempt.tries end) result }
{
    match end {
        End::Served(bytes) => BlindNext::Over(BlindOver {
            end: BlindEnd::Served {
                path: attempt.place as u32 + 1,
                bytes,
            },
        }),
        End::Denied { at, rc } => refused(attempt, at, rc),
        End::BadReply(stage) => closing(attempt, BlindEnd::BadReply(stage)),
    }
}

// The state after a try that was refused: the next path is tried, and behind the last one the session is ended.
fn refused(attempt: Attempt, at: Stage, rc: Rc) -> BlindNext
    requires { attempt.sent ≤ 1026 * (attempt.place + 1) }
    ensures { IsBlindNext attempt.plan
        (next_try attempt.session attempt.sent
        (slice_set attempt.tries attempt.place (Refused at rc))
        (tried_from attempt.plan (attempt.place + 1))) result }
{
    let Attempt {
        plan,
        session,
        sent,
        place,
        tries,
    } = attempt;
    let tries = with_refusal(tries, place, at, rc);
    match plan.tried_from(place + 1) {
        Some(place) => BlindNext::Again(BlindAgain::new(Attempt {
            plan,
            session,
            sent,
            place,
            tries,
        })),
        None => BlindNext::Closing(BlindClosing::new(
            plan,
            session.handle,
            BlindEnd::NoBranch(tries),
        )),
    }
}

// What became of each path, with the refusal of the one at a place. It takes no memory.
fn with_refusal(tries: Tries, place: usize, at: Stage, rc: Rc) -> Tries
    requires { place < length tries }
    ensures { result ≡ slice_set tries place (Refused at rc) }
{
    let mut items = tries.into_vec();
    items[place] = Tried::Refused { at, rc };
    Tries::from_vec(items)
}

/// The state before the end of the session, with the end that is known.
pub(crate) fn closing(attempt: Attempt, end: BlindEnd) -> BlindNext
    ensures { IsBlindNext attempt.plan (Closing attempt.session.handle end) result }
{
    let Attempt { plan, session, .. } = attempt;
    BlindNext::Closing(BlindClosing::new(plan, session.handle, end))
}
