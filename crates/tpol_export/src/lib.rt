//! Policies in FAPI's spelling: the way back from `normal` of tpol_adopt.
//!
//! `spelled(alloc, &value)` is a pure function on JSON values, rule by rule: of a policy's canonical value it makes what FAPI
//! 3.2.1 imports. `normal` of that reads as the policy, with the hierarchies that a path names by their handles.
//! `differences_of` tells at which elements FAPI 3.2.1 computes another digest of what it imports, which the program above
//! prints.
#![tactic(auto)]

mod differences;
mod laws;
mod policy;
mod rules;
mod values;
mod walk;

pub use differences::{Cause, Difference, Differences, differences_of};
pub use laws::{exports_read_back, nothing_follows_first};
pub use policy::export_policy;
pub use walk::spelled;
