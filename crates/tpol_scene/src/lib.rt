//! Scenes: what a machine starts from, who its clients are and what happens to it, written as a JSON object.
//! `read_scene` gives the setup of the machine, the entities whose authorization policy is named, the clients
//! with what each may use, and the script, or the first fault in reading order. The entities and the PCRs are
//! read by `tpol_entities`; here stand the clients, the goals, the events and the whole.
//!
//! The layers above take from here the scene, the definitions `scene_faults` and `StandsForScene`, and the
//! conditions that each scene meets which is read (`specs/Conditions.antt`).
#![tactic(auto)]

mod cast;
mod clients;
mod events;
mod fault;
mod goals;
mod grants;
mod scene;
mod script;
mod start;

pub use clients::Clients;
pub use fault::SceneFault;
pub use scene::{Scene, read_scene};
pub use script::{Script, ScriptEvent};
pub use tpol_entities::{EntityPolicies, EntityPolicy, SceneKind};
