//! As many sessions as a TPM has room for, and one more.
//!
//! The proof of a function proves the drop of each value that it holds, wherever it may end early. So the sessions are
//! held by a function that ends in one place, and what is asked of them stands in others that are lent them.

use crate::answers::starts;
use std::alloc::Global;
use tpm_session::Sessions;

// The first handle of a policy session (TPM 2.0 Part 2, TPM_HT_POLICY_SESSION).
const FIRST: u32 = 0x0300_0000;

fn starts_sixty_four(alloc: Global, sessions: &mut Sessions) -> bool {
    for slot in 0..64u32 {
        if sessions.free(0) != 64 - slot || !starts(alloc, sessions, 0, Some(FIRST + slot)) {
            return false;
        }
    }
    true
}

// Whether two slots that are free again, one of them taken, are found.
fn finds_free_slots(alloc: Global, sessions: &mut Sessions) -> bool {
    starts(alloc, sessions, 0, None)
        && sessions.flush(FIRST + 5)
        && sessions.flush(FIRST + 9)
        && starts(alloc, sessions, 1 << 5, Some(FIRST + 9))
        && starts(alloc, sessions, 1 << 5, None)
        && starts(alloc, sessions, 0, Some(FIRST + 5))
}

fn is_fresh(sessions: &Sessions) -> bool {
    match sessions.find(FIRST) {
        Some(session) => session.start() == 5 && session.room() == 512,
        None => false,
    }
}

// Whether nothing is live once all sessions have ended, and then one alone.
fn ends_all(alloc: Global, sessions: &mut Sessions) -> bool {
    sessions.clear();
    !sessions.flush(FIRST)
        && starts(alloc, sessions, 0, Some(FIRST))
        && sessions.restart(FIRST)
        && is_fresh(sessions)
        && !sessions.restart(FIRST + 1)
        && !sessions.flush(FIRST + 64)
        && sessions.find(0x0200_0000).is_none()
}

fn keeps_sessions(alloc: Global) -> bool {
    match Sessions::new(alloc) {
        Ok(mut sessions) => {
            starts_sixty_four(alloc, &mut sessions)
                && finds_free_slots(alloc, &mut sessions)
                && ends_all(alloc, &mut sessions)
        }
        Err(_) => false,
    }
}

#[test]
fn sixty_four_sessions_and_one_more(rt: HostRuntime) {
    assert!(rt; keeps_sessions(rt.alloc()));
}
