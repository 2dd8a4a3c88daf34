//! The states of the blind driver that have a next command.

ghost use Rattle.std.specs.Prelude.{◌≡◌, IfOk, IfErr};
ghost use Rattle.tpol_driver.specs.Blind.{blind_hears, blind_sends};
ghost use Rattle.tpol_driver.specs.BlindStates.{IsBlindNext, IsBlindSent};
ghost use Rattle.tpol_runs.specs.State.{blind_driving_of};

use std::alloc::Global;
use tpol_base::{Blob, NoMemory};
use tpol_driver::{BlindAgain, BlindAsserting, BlindClosing, BlindNext, BlindReady, BlindStart};

// A state of the blind driver that is not at its end.
#[derive(Drop)]
pub enum BlindState {
    Start(BlindStart),
    Asserting(BlindAsserting),
    Ready(BlindReady),
    Again(BlindAgain),
    Closing(BlindClosing),
}

// The state's next command.
pub fn blind_next(state: &BlindState, alloc: Global) -> Result<Blob, NoMemory>
    ensures { let driving = blind_driving_of state.now
        in IfOk result (IsBlindSent (blind_sends driving.plan driving.standing)) }
{
    match state {
        BlindState::Start(start) => start.next(alloc),
        BlindState::Asserting(asserting) => asserting.next(alloc),
        BlindState::Ready(ready) => ready.next(alloc),
        BlindState::Again(again) => again.next(alloc),
        BlindState::Closing(closing) => closing.next(alloc),
    }
}

// Goes on with the reply. With `NoMemory` the state comes back unchanged.
pub fn blind_take(
    state: BlindState,
    alloc: Global,
    reply: &[u8],
) -> Result<BlindNext, (BlindState, NoMemory)>
    ensures next { let driving = blind_driving_of state
        in IfOk result (IsBlindNext driving.plan
        (blind_hears driving.plan driving.standing reply.now)) }
    ensures back { IfErr result (λ refused. refused.0 ≡ state) }
{
    match state {
        BlindState::Start(start) => match start.take(alloc, reply) {
            Ok(next) => Ok(next),
            Err((start, no_memory)) => Err((BlindState::Start(start), no_memory)),
        },
        BlindState::Asserting(asserting) => match asserting.take(alloc, reply) {
            Ok(next) => Ok(next),
            Err((asserting, no_memory)) => Err((BlindState::Asserting(asserting), no_memory)),
        },
        BlindState::Ready(ready) => match ready.take(alloc, reply) {
            Ok(next) => Ok(next),
            Err((ready, no_memory)) => Err((BlindState::Ready(ready), no_memory)),
        },
        BlindState::Again(again) => match again.take(alloc, reply) {
            Ok(next) => Ok(next),
            Err((again, no_memory)) => Err((BlindState::Again(again), no_memory)),
        },
        BlindState::Closing(closing) => match closing.take(alloc, reply) {
            Ok(next) => Ok(next),
            Err((closing, no_memory)) => Err((BlindState::Closing(closing), no_memory)),
        },
    }
}
