//! The commands, each in a file of its own under its standard name: handles, parameters and reply (TPM 2.0 Part 3).
//! What several have in common stands in `assertion`, `comparison`, `session` and `ticketed`.
//!
//! `read` reads what stands behind a command's header; `tagged` says whether the tag announces an authorization. It
//! answers `Refused` with the code of the first fault: of a handle; TPM_RC_AUTH_MISSING or TPM_RC_AUTH_CONTEXT where
//! `tagged` does not fit the command; of the authorization; of a parameter. Which code a handle or a parameter has,
//! and its number in the code, `tpol_fields::fields` says. `read_reply` reads the fields of a reply, which count as
//! parameters; to its caller each refusal is a reply that is malformed. Bytes that are left over the callers refuse,
//! behind a command with TPM_RC_SIZE. `write` and `write_reply` put the parameters, and the fields of the reply,
//! behind what is there. Where memory runs out the answer is `NoMemory`; the writers have no other error.
#![tactic(auto, unfolding(crate::specs::Reading::body_at, crate::specs::Reading::front_at, crate::specs::Reading::reply_at, crate::specs::Reading::values_at, crate::specs::Commands::spell_values, tpol_fields::specs::Kinds::spell))]

mod assertion;
mod comparison;
pub(crate) mod context_load;
pub(crate) mod context_save;
pub(crate) mod duplicate;
pub(crate) mod flush_context;
pub(crate) mod hmac;
pub(crate) mod nv_increment;
pub(crate) mod nv_read;
pub(crate) mod nv_write;
pub(crate) mod pcr_extend;
pub(crate) mod pcr_read;
pub(crate) mod policy_auth_value;
pub(crate) mod policy_authorize;
pub(crate) mod policy_authorize_nv;
pub(crate) mod policy_command_code;
pub(crate) mod policy_counter_timer;
pub(crate) mod policy_cp_hash;
pub(crate) mod policy_duplication_select;
pub(crate) mod policy_get_digest;
pub(crate) mod policy_locality;
pub(crate) mod policy_name_hash;
pub(crate) mod policy_nv;
pub(crate) mod policy_nv_written;
pub(crate) mod policy_or;
pub(crate) mod policy_password;
pub(crate) mod policy_pcr;
pub(crate) mod policy_physical_presence;
pub(crate) mod policy_restart;
pub(crate) mod policy_secret;
pub(crate) mod policy_signed;
pub(crate) mod policy_ticket;
mod session;
pub(crate) mod start_auth_session;
mod ticketed;
pub(crate) mod unseal;
pub(crate) mod verify_signature;
