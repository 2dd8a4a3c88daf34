//! A TPM's PCRs and clock, and the comparison that PolicyNV and PolicyCounterTimer make.
//!
//! The machine keeps a `Pcrs` and changes it by `extend` and `clear`; the rules of policy commands read the
//! digest of a selection, the clock's bytes and the comparison. No call takes memory.
#![tactic(auto)]

mod clock;
mod comparison;
mod pcrs;
#[cfg(test)]
mod tests;

pub use clock::Clock;
pub use comparison::compare;
pub use pcrs::{PcrFull, Pcrs, digest_of_selection};
