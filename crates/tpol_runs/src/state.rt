//! The states of the driver that have a next command.

ghost use Rattle.std.specs.Prelude.{◌≡◌, ◌++◌, IfOk, IfErr};
ghost use Rattle.tpol_driver.specs.Driving.{earned_by, hears, sends};
ghost use Rattle.tpol_driver.specs.States.{IsNext, IsSent};
ghost use Rattle.tpol_runs.specs.State.{driving_of};

use std::alloc::Global;
use tpol_base::{Blob, NoMemory};
use tpol_driver::{Asserting, Closing, Next, Planned, Ready};

// A state of the driver that is not at its end.
#[derive(Drop)]
pub enum State {
    Planned(Planned),
    Asserting(Asserting),
    Ready(Ready),
    Closing(Closing),
}

// The state's next command.
pub fn next(state: &State, alloc: Global) -> Result<Blob, NoMemory>
    ensures { let driving = driving_of state.now
        in IfOk result (IsSent (sends driving.plan driving.standing)) }
{
    match state {
        State::Planned(planned) => planned.next(alloc),
        State::Asserting(asserting) => asserting.next(alloc),
        State::Ready(ready) => ready.next(alloc),
        State::Closing(closing) => closing.next(alloc),
    }
}

// Goes on with the reply. With `NoMemory` the state comes back unchanged.
pub fn take(state: State, alloc: Global, reply: &[u8]) -> Result<Next, (State, NoMemory)>
    ensures next { let driving = driving_of state
        in IfOk result (IsNext driving.plan (driving.earned
        ++ earned_by driving.plan driving.standing reply.now)
        (hears driving.plan driving.standing reply.now)) }
    ensures back { IfErr result (λ refused. refused.0 ≡ state) }
{
    match state {
        State::Planned(planned) => match planned.take(alloc, reply) {
            Ok(next) => Ok(next),
            Err((planned, no_memory)) => Err((State::Planned(planned), no_memory)),
        },
        State::Asserting(asserting) => match asserting.take(alloc, reply) {
            Ok(next) => Ok(next),
            Err((asserting, no_memory)) => Err((State::Asserting(asserting), no_memory)),
        },
        State::Ready(ready) => match ready.take(alloc, reply) {
            Ok(next) => Ok(next),
            Err((ready, no_memory)) => Err((State::Ready(ready), no_memory)),
        },
        State::Closing(closing) => match closing.take(alloc, reply) {
            Ok(next) => Ok(next),
            Err((closing, no_memory)) => Err((State::Closing(closing), no_memory)),
        },
    }
}
