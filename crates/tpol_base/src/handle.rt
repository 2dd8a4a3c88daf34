//! Handles (TPM 2.0 Part 2, TPM_RH and TPM_HT): some that are always there, and the kinds of handles.

ghost use Rattle.std.specs.Prelude.{◌≡◌};
ghost use Rattle.tpol_base.specs.Handle.{kind_of_handle};

/// The owner hierarchy.
pub const TPM_RH_OWNER: u32 = 0x4000_0001;

/// The null hierarchy.
pub const TPM_RH_NULL: u32 = 0x4000_0007;

/// The handle that stands for a password where a session is wanted.
pub const TPM_RS_PW: u32 = 0x4000_0009;

/// The lockout authorization.
pub const TPM_RH_LOCKOUT: u32 = 0x4000_000a;

/// The endorsement hierarchy.
pub const TPM_RH_ENDORSEMENT: u32 = 0x4000_000b;

/// What a handle stands for, as its first byte tells (TPM 2.0 Part 2, TPM_HT).
#[derive(Clone, Copy, Debug, PartialEq, Eq)]
pub enum HandleKind {
    /// A PCR: 0 to 23 (TPM_HT_PCR, 0x00 in front).
    Pcr,
    /// An NV index: 0x01 in front (TPM_HT_NV_INDEX).
    Index,
    /// A policy session: 0x03 in front (TPM_HT_POLICY_SESSION).
    PolicySession,
    /// A hierarchy, or another handle that is always there: 0x40 in front (TPM_HT_PERMANENT).
    Permanent,
    /// A loaded object: 0x80 in front (TPM_HT_TRANSIENT).
    Object,
}

impl HandleKind {
    /// The kind of this handle; `None` for a handle of none of these kinds.
    pub fn of(handle: u32) -> Option<HandleKind>
        ensures { result ≡ kind_of_handle handle }
    {
        match handle >> 24 {
            0x00 if handle < 24 => Some(HandleKind::Pcr),
            0x01 => Some(HandleKind::Index),
            0x03 => Some(HandleKind::PolicySession),
            0x40 => Some(HandleKind::Permanent),
            0x80 => Some(HandleKind::Object),
            _ => None,
        }
    }
}
