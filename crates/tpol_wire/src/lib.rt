//! Commands and replies of a TPM as bytes (TPM 2.0 Part 3): each byte string is one command or one refusal
//! code, and each command has one spelling. The machine reads commands and writes replies through this
//! crate, and the driver does the opposite. What a command is stands here too: its handles, its authorization,
//! the policy session that it acts on, and what of it and of its reply is hashed.
#![tactic(auto)]

mod auth_area;
mod authorization;
mod command;
mod commands;
mod fault;
mod handles;
mod hashes;
mod laws;
mod message;
mod reading;
mod reply;
mod reply_reading;
mod reply_writing;
mod table;
mod writing;

pub use auth_area::{AuthArea, ReplyAuth};
pub use command::Command;
pub use fault::ReplyFault;
pub use handles::Handles;
pub use hashes::rp_hash;
pub use laws::{first_rule_broken, one_spelling, read_back};
pub use reading::read_command;
pub use reply::Reply;
pub use reply_reading::{read_reply, refusal_tag};
pub use reply_writing::{fields_of, write_reply};
pub use tpol_fields::{Ticket, WireFault};
pub use writing::{code_of, parameters_of, write_command};
