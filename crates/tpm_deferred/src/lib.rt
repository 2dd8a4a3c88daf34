//! The deferred checks of a policy session: what a TPM asks when the session is to authorize a command
//! (TPM 2.0 Part 1, "Policy Session Use").
//!
//! The machine above makes an `Attempt` of the command and its surroundings; the answer is the first broken
//! check by the rules of `tpm_rules`. No call takes memory.
#![tactic(auto)]

mod attempt;
mod checks;
#[cfg(test)]
mod tests;

pub use attempt::Attempt;
pub use checks::check_use;
pub use tpm_rules::code_of_check;
