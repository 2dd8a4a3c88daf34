//! Numbers of algorithms, of types of sessions and of tags (TPM 2.0 Part 2, TPM_ALG_ID, TPM_SE and TPM_ST).

/// The algorithm HMAC.
pub const TPM_ALG_HMAC: u16 = 0x0005;

/// The type of objects that are a secret or an HMAC key.
pub const TPM_ALG_KEYEDHASH: u16 = 0x0008;

/// The algorithm SHA-256.
pub const TPM_ALG_SHA256: u16 = 0x000b;

/// The null algorithm.
pub const TPM_ALG_NULL: u16 = 0x0010;

/// The type of a policy session.
pub const TPM_SE_POLICY: u8 = 0x01;

/// The tag of a refusal of a tag, that of TPM 1.2.
pub const TPM_ST_RSP_COMMAND: u16 = 0x00c4;

/// The tag of a command without an authorization, and of the reply to it.
pub const TPM_ST_NO_SESSIONS: u16 = 0x8001;

/// The tag of a command with an authorization, and of the reply to it.
pub const TPM_ST_SESSIONS: u16 = 0x8002;

/// The tag of VerifySignature's ticket.
pub const TPM_ST_VERIFIED: u16 = 0x8022;

/// The tag of PolicySecret's ticket.
pub const TPM_ST_AUTH_SECRET: u16 = 0x8023;

/// The tag of PolicySigned's ticket.
pub const TPM_ST_AUTH_SIGNED: u16 = 0x8025;
