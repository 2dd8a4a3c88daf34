//! The policy commands of TPM 2.0 Part 3 on a policy session: each adds one fact to the session where the rules
//! of `tpm_rules` hold, or answers the response code of the first one that is broken, and then changes nothing.
//!
//! A file a command, under its standard name. The rules that the command's handles and its authorization ask
//! for are tested by the machine before the call: that the session has room, authority over an index, and
//! that a signing key is one. No call takes memory: lists are moved into the fact.
#![tactic(auto)]

mod judgments;
mod policy_auth_value;
mod policy_authorize;
mod policy_authorize_nv;
mod policy_command_code;
mod policy_counter_timer;
mod policy_cp_hash;
mod policy_duplication_select;
mod policy_locality;
mod policy_name_hash;
mod policy_nv;
mod policy_nv_written;
mod policy_or;
mod policy_pcr;
mod policy_secret;
mod policy_signed;
mod policy_ticket;
mod session;

pub use judgments::{AuthTicket, is_approval_ticket, is_auth_ticket, is_signature};
pub use policy_auth_value::{assert_auth_value, assert_password, assert_presence};
pub use policy_authorize::assert_authorize;
pub use policy_authorize_nv::assert_authorize_nv;
pub use policy_command_code::assert_command_code;
pub use policy_counter_timer::assert_counter_timer;
pub use policy_cp_hash::assert_cp_hash;
pub use policy_duplication_select::assert_duplication;
pub use policy_locality::assert_locality;
pub use policy_name_hash::assert_name_hash;
pub use policy_nv::assert_nv;
pub use policy_nv_written::assert_nv_written;
pub use policy_or::assert_or;
pub use policy_pcr::{assert_pcr, assert_selected};
pub use policy_secret::assert_secret;
pub use policy_signed::assert_signed;
pub use policy_ticket::assert_ticket;
