/// No slot is free for a new session.
#[derive(Clone, Copy, Debug, PartialEq, Eq)]
pub struct Full;
