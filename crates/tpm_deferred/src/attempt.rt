//! An attempt to use a policy session.

use tpol_base::Digest32;

/// A command that a policy session is to authorize, and its surroundings.
#[derive(Clone, Copy)]
pub struct Attempt<'a> {
    /// The command's code.
    pub code: u32,
    /// Whether the command needs the role DUP, as Duplicate does.
    pub duplicate_role: bool,
    /// The client's locality.
    pub locality: u8,
    /// Whether physical presence is on.
    pub presence: bool,
    /// The time in milliseconds.
    pub time: u64,
    /// The PCR counter.
    pub pcr_counter: u32,
    /// The command's cpHash.
    pub cp_hash: Digest32,
    /// The hash of the Names of the command's handles.
    pub name_hash: Digest32,
    /// Whether the authorized entity was written, where it is an index.
    pub nv_written: Option<bool>,
    /// The authPolicy of the authorized entity.
    pub auth_policy: &'a [u8],
    /// The authorization value of the authorized entity.
    pub auth_value: &'a [u8],
    /// The nonce of the command's authorization area.
    pub nonce_caller: &'a [u8],
    /// The session attributes of the area.
    pub attributes: u8,
    /// The field hmac of the area.
    pub hmac: &'a [u8],
}
