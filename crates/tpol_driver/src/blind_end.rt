//! How a blind run ends.

use crate::end::Stage;
use tpol_base::{Blob, Rc, Sequence};

/// What became of a path of a blind run.
#[derive(Clone, Copy, Debug, PartialEq, Eq)]
pub enum Tried {
    /// It was not tried: not each of its commands can be made.
    Skipped,
    /// It was tried, and a command was refused with this code, which is not 0.
    Refused { at: Stage, rc: Rc },
}

/// What became of each path of a blind run, in order.
pub type Tries = Sequence<Tried>;

/// The end of a blind run.
#[derive(Drop)]
pub enum BlindEnd {
    /// The goal's command was served on the path at this position, from 1, with what it gave (see `End::Served`).
    Served { path: u32, bytes: Blob },
    /// Each path was refused or skipped.
    NoBranch(Tries),
    /// StartAuthSession, or the PolicyRestart between two paths, was refused with this code, which is not 0.
    Denied { at: Stage, rc: Rc },
    /// The bytes that came were no reply to the command, or the authorization of the goal's reply was wrong.
    BadReply(Stage),
}
