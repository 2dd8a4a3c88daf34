//! What a policy document is sealed under, element by element.
//!
//! `marks_of` gives the digest that a policy session has after each element of a policy, with the element's place, and
//! `own_digests` the digests that the document itself tells of the element at a place: FAPI writes them into what it
//! exports. The program above compares them.
#![tactic(auto)]

mod laws;
mod marks;
mod owns;
mod ungrouped;

pub use laws::last_mark_is_the_policys;
pub use marks::{Mark, Marks, marks_of};
pub use owns::own_digests;
