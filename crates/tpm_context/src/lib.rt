//! Saved sessions (TPM 2.0 Part 3, TPM2_ContextSave and TPM2_ContextLoad).
//!
//! A context is a claim to a session that stays in the TPM: `Saved` holds the sessions that are saved, each
//! with its context's sequence number, until they are loaded or flushed or the TPM is reset. So a session has one
//! copy.
#![tactic(auto)]

mod saved;
mod saved_session;

pub use saved::Saved;
