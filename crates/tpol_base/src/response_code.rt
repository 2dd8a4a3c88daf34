//! Response codes (TPM 2.0 Part 2, TPM_RC), by their names there without `TPM_RC_`, and what is added to a
//! code for the position of a handle, a session or a parameter, each counted from 1.

ghost use Rattle.std.specs.Prelude.{◌≡◌, ◌≤◌};
ghost use Rattle.tpol_base.specs.ResponseCode.{of_handle, of_parameter, of_session, reference_of_handle};

/// Success.
pub const SUCCESS: u32 = 0x000;

// ---- codes of a whole command

/// The tag is neither that of sessions nor that of none.
pub const BAD_TAG: u32 = 0x01e;

/// The authorization is of the wrong kind for the command.
pub const AUTH_TYPE: u32 = 0x124;

/// The command needs an authorization.
pub const AUTH_MISSING: u32 = 0x125;

/// A comparison of the policy does not hold.
pub const POLICY: u32 = 0x126;

/// A check of PCRs failed.
pub const PCR: u32 = 0x127;

/// A PCR changed after PolicyPCR.
pub const PCR_CHANGED: u32 = 0x128;

/// This kind of authorization is not available for the entity.
pub const AUTH_UNAVAILABLE: u32 = 0x12f;

/// The size of the buffer is wrong.
pub const COMMAND_SIZE: u32 = 0x142;

/// No command has this code, or the policy allows another one.
pub const COMMAND_CODE: u32 = 0x143;

/// The size of the authorization is wrong.
pub const AUTHSIZE: u32 = 0x144;

/// The command takes no authorization.
pub const AUTH_CONTEXT: u32 = 0x145;

/// An access past the end of an index, or a count past the last number.
pub const NV_RANGE: u32 = 0x146;

/// The entity does not authorize this access to the index.
pub const NV_AUTHORIZATION: u32 = 0x149;

/// The index was never written.
pub const NV_UNINITIALIZED: u32 = 0x14a;

/// The session already holds another digest of parameters, Names or a template.
pub const CPHASH: u32 = 0x151;

// ---- codes that the position of a handle, a session or a parameter is added to

/// An attribute that does not fit.
pub const ATTRIBUTES: u32 = 0x082;

/// A hash algorithm that does not fit.
pub const HASH: u32 = 0x083;

/// A value out of its range, or that does not fit.
pub const VALUE: u32 = 0x084;

/// A handle that does not fit.
pub const HANDLE: u32 = 0x08b;

/// A value out of the range that is allowed.
pub const RANGE: u32 = 0x08d;

/// The authorization is wrong, and dictionary attacks count.
pub const AUTH_FAIL: u32 = 0x08e;

/// A nonce that does not fit.
pub const NONCE: u32 = 0x08f;

/// Physical presence is wanted.
pub const PP: u32 = 0x090;

/// A length or a count out of its bounds, or bytes left over.
pub const SIZE: u32 = 0x095;

/// Too few bytes.
pub const INSUFFICIENT: u32 = 0x09a;

/// A signature that does not verify.
pub const SIGNATURE: u32 = 0x09b;

/// A key that does not fit.
pub const KEY: u32 = 0x09c;

/// A policy check failed.
pub const POLICY_FAIL: u32 = 0x09d;

/// An integrity check failed.
pub const INTEGRITY: u32 = 0x09f;

/// A ticket that does not verify.
pub const TICKET: u32 = 0x0a0;

/// The authorization is wrong, and dictionary attacks do not count.
pub const BAD_AUTH: u32 = 0x0a2;

/// A deadline has passed.
pub const EXPIRED: u32 = 0x0a3;

/// The policy allows another command.
pub const POLICY_CC: u32 = 0x0a4;

// ---- warnings

/// No room for a session, or for what a session holds.
pub const SESSION_MEMORY: u32 = 0x903;

/// The locality is not one that the policy allows.
pub const LOCALITY: u32 = 0x907;

/// The first handle refers to an object or a session that is not there; the codes of the further handles follow.
pub const REFERENCE_H0: u32 = 0x910;

/// The authorizing session is not there.
pub const REFERENCE_S0: u32 = 0x918;

// ---- positions

/// What is added to a code for handle `n`.
pub fn of_handle(n: u8) -> u32
    ensures { result ≡ of_handle n }
{
    0x100 * n as u32
}

/// The code where handle `n` refers to an object or a session that is not there.
pub fn reference_of_handle(n: u8) -> u32
    requires { 1 ≤ n }
    ensures { result ≡ reference_of_handle n }
{
    REFERENCE_H0 + (n as u32 - 1)
}

/// What is added to a code for session `n`.
pub fn of_session(n: u8) -> u32
    ensures { result ≡ of_session n }
{
    0x800 + 0x100 * n as u32
}

/// What is added to a code for parameter `n`.
pub fn of_parameter(n: u8) -> u32
    ensures { result ≡ of_parameter n }
{
    0x040 + 0x100 * n as u32
}
