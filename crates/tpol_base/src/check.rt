//! The checks at the use of a policy session.

/// The checks that a TPM makes when a policy session is used, in their order
/// (TPM 2.0 Part 1, "Policy Session Use").
#[derive(Clone, Copy, Debug, PartialEq, Eq)]
pub enum Check {
    /// A PCR changed after PolicyPCR.
    PcrChanged,
    /// The session's digest is not the entity's authPolicy.
    PolicyFail,
    /// A deadline has passed.
    Expired,
    /// The command is not the one that the policy allows.
    CommandCode,
    /// The command's role needs a policy that names the command.
    RoleNeedsCode,
    /// The command came from another locality.
    Locality,
    /// Physical presence is not asserted.
    Presence,
    /// The parameters or the handles are not those that the policy allows.
    Hashes,
    /// The index is written or not written, against the policy, or the entity is no index.
    NvWritten,
    /// The authorization value was not proved.
    AuthValue,
}
