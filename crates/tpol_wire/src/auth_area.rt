use tpol_base::Blob;

/// A command's authorization (TPM 2.0 Part 2, TPMS_AUTH_COMMAND).
#[derive(Drop)]
pub struct AuthArea {
    /// TPM_RS_PW (0x4000_0009) for a password, or a policy session.
    pub session: u32,
    /// The caller's nonce, at most 32 bytes; empty with a password.
    pub nonce: Blob,
    /// The session's attributes; bit 0, continueSession, is the only one that may be set.
    pub attributes: u8,
    /// The HMAC or the password, at most 64 bytes.
    pub hmac: Blob,
}

/// A reply's authorization (TPM 2.0 Part 2, TPMS_AUTH_RESPONSE).
#[derive(Drop)]
pub struct ReplyAuth {
    /// The TPM's nonce, at most 32 bytes.
    pub nonce: Blob,
    /// The session's attributes.
    pub attributes: u8,
    /// The HMAC, at most 64 bytes.
    pub hmac: Blob,
}
