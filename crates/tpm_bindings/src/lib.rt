//! What the facts of a policy session bind, merged: each policy command binds the later use of the session
//! (TPM 2.0 Part 1, "Policy Session"), and `Bindings` keeps of all of them together the values that they
//! ask for, without memory.
//!
//! Rules are stated over lists of facts, by the words of `specs/Facts.antt`. Each call of `Bindings` says
//! that its answer is the word's, whatever list of facts was merged.
#![tactic(auto)]

mod assertion;
mod bindings;
mod deadline;
mod disagreement;
mod held;
mod last_auth;
#[cfg(test)]
mod tests;

pub use bindings::Bindings;
pub use deadline::is_before;
pub use disagreement::Disagreement;
pub use held::Held;
pub use last_auth::LastAuth;
