//! What makes a scene ready to be carried out: the policies that it names, looked up in the store, filled and within
//! limits. And what fills a policy with the shelf's scene of a name, if one is named.
//!
//! The policies of entities come first, each filled with what the entities before it show, and its digest is the
//! entity's authPolicy; then come those that the script begins. The layers above take `stage`, which reads the scene in
//! the source and goes through the steps of tpol_steps for all policies that it names: it gives a scene that can be
//! carried out. For a scene of the shelf they take `sight_of_scene`, which gives what its machine shows when it starts;
//! `closed_source`, which gives a policy of the source that is filled with that and within limits, with the documents
//! that are approved; and `StoreWithScene`, for the same of a policy of the shelf. What is given is a definition in
//! `specs/`, a `Step`; a refusal is the first fault in the order of these definitions.
#![tactic(auto)]

mod begins;
mod documents;
mod entities;
mod manner;
mod prepared;
mod references;
mod scenario;
mod shelved;

pub use entities::{CompiledEntity, CompiledSetup};
pub use manner::{Manner, Way};
pub use prepared::PreparedScene;
pub use references::Reference;
pub use scenario::{Scenario, StagedScene, stage};
pub use shelved::{PolicyWithApprovals, StoreWithScene, closed_source, sight_of_scene};
