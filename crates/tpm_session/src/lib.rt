//! The policy sessions of a TPM (TPM 2.0 Part 1, "Session-Based Authorizations").
//!
//! A `Session` is its handle, the time of its start, its nonceTPM, its facts (one for each policy command
//! that succeeded) and the PCR counter that its first PolicyPCR found. Its facts are always sound and agree.
//! `Sessions` are 64 slots, found by handle.
#![tactic(auto)]

mod full;
mod session;
mod sessions;
mod table;

pub use full::Full;
pub use session::{Session, fresh_facts};
pub use sessions::Sessions;
pub use table::{FIRST_HANDLE, SLOT_COUNT, Table};
