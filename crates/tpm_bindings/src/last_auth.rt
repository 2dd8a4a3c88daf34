/// How the authorization value is to be proved: the last of the PolicyAuthValue and PolicyPassword of a
/// session decides.
#[derive(Clone, Copy, PartialEq, Eq)]
pub enum LastAuth {
    /// There was neither command.
    Neither,
    /// By an HMAC with the value as key.
    AuthValue,
    /// In plain.
    Password,
}
