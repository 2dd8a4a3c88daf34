use tpol_base::{Blob, Sequence};

/// Event numbers, in order.
pub type Events = Sequence<u32>;

/// What the facts of a session that met a policy's digest show.
#[derive(Drop)]
pub enum Opening {
    /// The first path of the policy that the facts went, by its position from 1, and the event numbers of
    /// all facts.
    Branch { path: u32, events: Events },
    /// No path matches, and these two different strings have one SHA-256 digest.
    Clash { first: Blob, second: Blob },
    /// No path matches, no two different strings have one digest, and the digest of this string is zero.
    ZeroInput { input: Blob },
}
