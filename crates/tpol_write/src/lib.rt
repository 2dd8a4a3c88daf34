//! The canonical text of a policy: one text for each policy, which reads back to it without a note. The
//! shelf keeps it, and people review and compare it.
#![tactic(auto)]

mod draft;
mod elements;
mod laws;
mod lists;
mod members;
mod names;
mod policy;
mod publics;
mod rows;
mod wishes;

pub use laws::{bytes_read_back, canonical_values_stand, numbers_read_back};
pub use policy::{write_policy, write_policy_in};
