//! What becomes of a command.

use tpol_base::{Check, Rc};

/// Why an authorization failed.
#[derive(Clone, Copy, Debug, PartialEq, Eq)]
pub enum Denial {
    /// This kind of authorization is not available for the entity and the command.
    Unavailable,
    /// The password is wrong.
    Password,
    /// The first deferred check of a policy session that is broken.
    Deferred(Check),
}

/// What becomes of a command.
#[derive(Clone, Copy, Debug, PartialEq, Eq)]
pub enum Outcome {
    /// It succeeded, and needed no authorization.
    Accepted,
    /// It succeeded, and its authorization was right.
    Served,
    /// Its authorization failed.
    Denied(Denial),
    /// It did not succeed for any other reason: it was refused with this code.
    Refused(Rc),
}
