//! The fields of a TPM's commands and replies as bytes (TPM 2.0 Part 2): handles, numbers, 2Bs, digests, Names,
//! tickets, PCR selections and signatures. Each is read from the front of what a cursor has left, or refused with
//! the code of the first rule that it breaks; each has one spelling.
#![tactic(auto)]

mod fault;
pub mod fields;
mod handle_type;
pub mod spelling;
mod ticket;

pub use fault::WireFault;
pub use handle_type::HandleType;
pub use ticket::Ticket;
