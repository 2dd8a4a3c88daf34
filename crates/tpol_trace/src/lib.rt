//! From digest to branch: by which written path the accepted policy commands of a session lead to a
//! policy's digest.
//!
//! The layers above use `opening_with_memo`, for which the digests of the policy are kept; `opening` makes them itself.
//! What stands behind both is the law of `facts_open`: where the facts of a session, each of which met the digest
//! before it, give the digest of a policy that is well formed with its approvals, they went one of its written paths,
//! or two different strings of one SHA-256 digest, or one of digest zero, are among what was hashed.
#![tactic(auto)]

mod answer;
mod asked;
mod broken;
mod laws;
mod open;
mod walk;
mod ways;
mod window;

pub use answer::{Events, Opening};
pub use laws::{chains_agree, facts_open, facts_open_without_approvals};
pub use open::{opening, opening_with_memo};
