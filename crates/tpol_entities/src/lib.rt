//! Who and what is in a scene: its entities (sealed secrets, HMAC keys and NV indices) and the values of its PCRs,
//! read from JSON values, each part as what it says or as its first fault in reading order.
//!
//! The reader of whole scenes, `tpol_scene`, takes from here the entities and the PCRs, the entities that paths
//! name, the faults of a scene (`SceneKind`), and how members and lists are read, of which its own parts are made:
//! an `ItemReader` reads each item of a list beside what the items before it gave, and `specs/Lists.antt` says what
//! the list gives and what all its faults are.
#![tactic(auto)]

mod entities;
mod entries;
mod fault;
mod heading;
mod kinds;
mod lists;
mod members;
mod pcrs;
mod targets;

pub use entities::{Entities, EntityPolicies, EntityPolicy, optional_entities};
pub use fault::{PartFault, SceneKind};
pub use heading::{NamedPolicy, policy_name};
pub use lists::{ItemReader, has_number, optional_list};
pub use members::{
    needed_bytes, needed_u32, optional_auth, optional_truth, optional_u32, zero_digest,
};
pub use pcrs::{PcrBank, optional_pcrs};
pub use targets::{Target, needed_target, target_of};
