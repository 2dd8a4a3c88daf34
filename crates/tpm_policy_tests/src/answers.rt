//! What calls are answered.

use std::alloc::Global;
use tpm_session::{Sessions, fresh_facts};
use tpol_base::{Digest32, Rc};

/// The code of an answer: 0 of a success.
pub fn code_of<T: Drop>(answer: Result<T, Rc>) -> u32 {
    match answer {
        Ok(_) => 0,
        Err(rc) => rc.code,
    }
}

/// Whether a session starts at the time 5 with this handle, or with none for want of a slot.
pub fn starts(alloc: Global, sessions: &mut Sessions, taken: u64, handle: Option<u32>) -> bool {
    match fresh_facts(alloc) {
        Ok(facts) => sessions.start(5, Digest32::ZERO, facts, taken).ok() == handle,
        Err(_) => false,
    }
}
