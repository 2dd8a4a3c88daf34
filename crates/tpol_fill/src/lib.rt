//! A policy as it is written becomes a closed policy: every Name, digest and argument is given, from a
//! sight of the machine where the policy names entities by path or the current values of PCRs.
//!
//! The layers above use `fill`: it gives the filled policy where no place is at fault, else the first fault in the
//! order of the document, or `NoMemory` in place of either; and what it gives is well formed.
#![tactic(auto)]

mod elements;
mod entities;
mod fault;
mod groups;
mod laws;
mod leaves;
mod names;
mod pcrs;

pub use elements::fill;
pub use entities::{name_of_index, name_of_key};
pub use fault::{FillFault, FillKind};
pub use laws::boxes_of_policies_are_ignored;
