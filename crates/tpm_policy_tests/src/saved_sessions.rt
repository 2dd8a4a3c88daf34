//! A session that is saved, loaded once, saved again and flushed.
//!
//! The proof of a function proves the drop of each value that it holds, wherever it may end early. So the sessions are
//! held by a function that ends in one place, and what is asked of them stands in others that are lent them.

ghost use Rattle.std.specs.Prelude.{◌≡◌, None, replicate};
ghost use Rattle.tpm_context.specs.Saved.{AreApart};
ghost use Rattle.tpm_session.specs.Slots.{slot_count};

use crate::answers::starts;
use std::alloc::Global;
use tpm_context::Saved;
use tpm_session::{FIRST_HANDLE, Sessions};

// Whether the first session is saved, loaded by its own number alone, and once, and saved again.
fn saves_and_loads(sessions: &mut Sessions, saved: &mut Saved) -> bool
    requires { AreApart sessions.old saved.old }
{
    saved.save(sessions, FIRST_HANDLE, 3)
        && sessions.find(FIRST_HANDLE).is_none()
        && saved.slots() == 1
        && !saved.load(sessions, FIRST_HANDLE, 4)
        && saved.load(sessions, FIRST_HANDLE, 3)
        && sessions.find(FIRST_HANDLE).is_some()
        && !saved.load(sessions, FIRST_HANDLE, 3)
        && saved.save(sessions, FIRST_HANDLE, 9)
}

// Whether a saved session keeps its handle until it is flushed.
fn keeps_handle(alloc: Global, sessions: &mut Sessions, saved: &mut Saved) -> bool {
    starts(alloc, sessions, saved.slots(), Some(FIRST_HANDLE + 1))
        && saved.flush(FIRST_HANDLE)
        && !saved.flush(FIRST_HANDLE)
        && saved.slots() == 0
}

fn has_one_copy(alloc: Global, sessions: &mut Sessions, saved: &mut Saved) -> bool
    requires { saved.old ≡ replicate slot_count None }
{
    starts(alloc, sessions, saved.slots(), Some(FIRST_HANDLE))
        && saves_and_loads(sessions, saved)
        && keeps_handle(alloc, sessions, saved)
}

fn saves_one(alloc: Global, sessions: &mut Sessions) -> bool {
    match Saved::new(alloc) {
        Ok(mut saved) => has_one_copy(alloc, sessions, &mut saved),
        Err(_) => false,
    }
}

fn saves_sessions(alloc: Global) -> bool {
    match Sessions::new(alloc) {
        Ok(mut sessions) => saves_one(alloc, &mut sessions),
        Err(_) => false,
    }
}

#[test]
fn a_session_has_one_copy(rt: HostRuntime) {
    assert!(rt; saves_sessions(rt.alloc()));
}
