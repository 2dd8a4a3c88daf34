//! What a policy names: the public areas of objects and NV indices with their Names, the entities and
//! values that a machine starts from (`Setup`) or shows (`Sight`), and the directory of its entities.
//!
//! The layers above take from here the Names, the comparison of paths, and the conditions `IsSetup` and
//! `IsSight`, which the calls over setups and sights have.
#![tactic(auto)]

mod areas;
mod entities;
mod entries;
mod listing;
mod named;
mod paths;
mod setup;
mod sight;

pub use areas::{
    NvPublic, ObjectPublic, Scheme, WRITTEN, index_name_of_parts, is_signing_key, may_sign,
    nv_name, nv_name_once_written, object_name, object_name_of_parts, written,
};
pub use entities::{hierarchy_at, index_at, object_at};
pub use entries::{DirEntry, Directory, IndexEntry, Indices, ObjectEntry, Objects};
pub use listing::directory;
pub use named::{HasName, Named, NamedIndices, NamedObjects, Names, names_of};
pub use paths::same_path;
pub use setup::{AuthsAndPcrs, EntityLists, Setup};
pub use sight::{Sight, opening_sight, opening_sight_of};
