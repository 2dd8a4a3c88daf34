//! What a TPM has beside its policy sessions, and all that a command asks of that alone: the entities that
//! handles stand for and their Names, the hashes of commands, and the commands on entities and PCRs, a file a
//! command under its standard name.
//!
//! The machine keeps a `World` beside its sessions. It changes by `carry_out` and with its surroundings, by
//! `advance`, `set_presence` and `reset`, and no change takes memory.
#![tactic(auto)]

mod commands;
mod entities;
mod hashes;
mod missing;
mod objects;
mod plain;
mod world;

pub use hashes::context_mac;
pub use missing::{missing_index, missing_object};
pub use world::World;
