//! What a client may use (`Grants`) and what it wants (`Goal`), and how they meet the entities of a machine:
//! the goal's command and its hashes, the entities of a sight and of a directory by Name and by handle, and the
//! authority of an index.
//!
//! The chooser of a path and the driver of a session cite the same definitions of this crate.
#![tactic(auto)]

mod entities;
mod goal;
mod grants;
mod hashes;
mod naming;

pub use entities::{
    entity_in_sight, entity_of_name, hierarchy_of_name, index_in_sight, index_of_handle,
    index_of_name, name_in_sight, name_of_handle, object_in_sight, object_of_handle,
    object_of_name,
};
pub use goal::Goal;
pub use grants::{Grants, Secrets};
pub use naming::Naming;
