//! Why a path can not be gone.

use tpol_base::{Check, Rc};

/// The first thing that stands in the way of a path.
#[derive(Clone, Copy, Debug, PartialEq, Eq)]
pub struct Block {
    /// The move that fails, from 1; 0 for the whole path and for the goal.
    pub at: u32,
    /// What stands in the way.
    pub why: Why,
}

/// What stands in the way of a path.
#[derive(Clone, Copy, Debug, PartialEq, Eq)]
pub enum Why {
    /// The path is by a policy that no listed document has.
    Outside,
    /// No session is free.
    NoSession,
    /// A Name that the move needs belongs to no entity of the kind that its command takes; at 0: the goal's handle
    /// belongs to none.
    NoEntity,
    /// The key that the move signs with is not granted.
    NoKey,
    /// The response code of the move's command, or of the VerifySignature before it.
    Answer(Rc),
    /// The first deferred check that the goal's command breaks.
    Deferred(Check),
    /// A response code for the goal's command: that no policy session may authorize it, or else that of the first rule
    /// of its own that it breaks.
    GoalRule(Rc),
}
