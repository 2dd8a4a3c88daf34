//! What a TPM computes of authorization values and keys: the comparison of passwords, the HMACs of
//! sessions, signatures of HMAC keys, and tickets.
//!
//! The machine checks with these calls, and the driver makes with them what the machine checks. Each result
//! is one equation to a definition that gives the order of its parts. No call takes memory.
#![tactic(auto)]

mod passwords;
mod session_macs;
mod signatures;
#[cfg(test)]
mod tests;
mod tickets;

pub use passwords::check_password;
pub use session_macs::{check_hmac, command_mac, reply_mac};
pub use signatures::{sign, signed_hash};
pub use tickets::{auth_ticket, check_ticket, verified_ticket};
