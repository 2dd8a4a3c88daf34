//! What the elements of policy documents say: wishes, public areas, and what each element but OR says in its own
//! members. `tpol_read` stands on it with lists, ORs and the document.
#![tactic(auto)]

mod laws;
mod publics;
mod rows;
mod types;
mod wishes;

pub use laws::wrappers_are_looked_up;
pub use rows::{leaf_row, without_pem};
pub use types::{ElementType, LeafType, element_type, note_leaf};
pub use wishes::{index_wish, key_wish};
