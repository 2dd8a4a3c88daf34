//! What single members of policy documents say: words and hashes, comparisons and commands, localities, PCRs, and
//! the members that several elements have; and the faults of a policy document. `tpol_elements` stands on it with
//! public areas, wishes and the rows of the elements.
#![tactic(auto)]

mod algorithms;
mod fault;
mod fields;
mod locality;
mod members;
mod operations;
mod pcrs;
mod walk;
mod words;

pub use algorithms::{check_hash, check_key_type, scheme};
pub use fault::{ElementFault, PolicyFault, PolicyKind};
pub use fields::{cp_hash, expiration, offset, operand, operation_member, policy_ref};
pub use locality::localities;
pub use members::{alone, first_of, note_unknown};
pub use operations::code;
pub use pcrs::pcr_wish;
pub use walk::Walk;
pub use words::only_word;
