//! SHA-256 (FIPS 180-4) and HMAC over it (FIPS 198-1).
//!
//! The layers above hash in pieces: a `Hasher` or a `Mac` takes bytes by `put` and gives the digest
//! of all of them by `done`. No call takes memory.
#![tactic(auto)]

mod hasher;
mod mac;
#[cfg(test)]
mod tests;

pub use hasher::{Hasher, hash};
pub use mac::{Mac, key_block};
use tpol_base::{Blob, Sequence};

/// Strings that were hashed, in the order of making.
pub type Inputs = Sequence<Blob>;
