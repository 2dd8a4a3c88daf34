//! The commands on entities and PCRs: a file a command, with what it asks, what it answers, and what it does. Where
//! no object or no index has the handle, the rule answers `missing_object` (TPM_RC_REFERENCE_H0) or `missing_index`
//! (TPM_RC_HANDLE, handle 2), and so does the reply of a command on an object.

pub mod duplicate;
pub mod hmac;
pub mod nv_increment;
pub mod nv_read;
pub mod nv_write;
pub mod pcr_extend;
pub mod pcr_read;
pub mod unseal;
pub mod verify_signature;
