//! Policy documents as FAPI exports them, in the profile's spelling.
//!
//! `normal(alloc, &value)` is a pure function on JSON values, rule by rule, and refuses nothing: what no rule names
//! stays as it is, and the reader of policy documents refuses it at its place. `dropped(alloc, &value)` tells the
//! places of the authorizations that it leaves out. No rule leaves out an element or a branch, so the place of an
//! element is the same in both. The program above writes `normal` of a document as a text, reads that as a policy,
//! and tells the places. The way back (tpol_export) takes the tables of flags from here.
#![tactic(auto)]

mod asymmetric;
mod codes;
mod edits;
mod flags;
mod laws;
mod rules;
mod schemes;
mod walk;
mod words;

pub use asymmetric::dropped;
pub use flags::{Flags, bits_of, index_flags, index_types, locality_flags, object_flags};
pub use laws::{flags_are_numbers, others_stay, policies_stay, spelling_lasts};
pub use walk::normal;
