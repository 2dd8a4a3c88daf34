//! What each policy command, each command on objects, authority over an index and both kinds of authorization ask,
//! once, in the order of the TPM library specification: the machine answers by these rules, and who chooses a way
//! through a policy is judged by them. The rules of commands on indices and PCRs stand in `tpm_nv` and `tpm_world`.
//!
//! A file for each policy command that has a rule, under its standard name, and one for the commands on objects. In
//! `specs/` a rule is a chain over the list of a session's facts; the code computes the same chain over the merged
//! bindings, and takes no memory. How an HMAC is judged is the last parameter of a rule, since the machine compares
//! bytes and the chooser compares keys.
#![tactic(auto)]

mod auth_value;
mod checks;
mod deadline;
mod entity;
mod nv_authority;
mod objects;
mod outcome;
mod password;
mod policy_authorize;
mod policy_authorize_nv;
mod policy_command_code;
mod policy_counter_timer;
mod policy_cp_hash;
mod policy_duplication_select;
mod policy_locality;
mod policy_name_hash;
mod policy_nv;
mod policy_nv_written;
mod policy_or;
mod policy_pcr;
mod policy_secret;
mod policy_signed;
mod policy_ticket;
mod rule;
mod slot;
mod standing;

pub use auth_value::Field;
pub use checks::{Use, check_use, code_of_check};
pub use deadline::deadline_of;
pub use entity::Entity;
pub use nv_authority::nv_authority_rule;
pub use objects::{
    duplicate_rule, hmac_rule, signing_key_rule, unseal_rule, verify_signature_rule,
};
pub use outcome::{Denial, Outcome};
pub use password::{password_denial, unavailable_password_code, wrong_password_code};
pub use policy_authorize::{approval_hash, policy_authorize_rule};
pub use policy_authorize_nv::policy_authorize_nv_rule;
pub use policy_command_code::policy_command_code_rule;
pub use policy_counter_timer::policy_counter_timer_rule;
pub use policy_cp_hash::policy_cp_hash_rule;
pub use policy_duplication_select::policy_duplication_select_rule;
pub use policy_locality::policy_locality_rule;
pub use policy_name_hash::policy_name_hash_rule;
pub use policy_nv::policy_nv_rule;
pub use policy_nv_written::policy_nv_written_rule;
pub use policy_or::policy_or_rule;
pub use policy_pcr::policy_pcr_rule;
pub use policy_secret::policy_secret_rule;
pub use policy_signed::policy_signed_rule;
pub use policy_ticket::policy_ticket_rule;
pub use rule::unless;
pub use standing::Standing;
