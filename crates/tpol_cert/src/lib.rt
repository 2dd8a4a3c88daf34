//! Certificates of openings: bytes that say which way through a policy was taken and what the digest was after each
//! of its moves. Anybody who has the policy and its approved documents can check one, with no journal and no machine.
//!
//! `certify` makes the certificate of a path, and `check` tells which path bytes certify. `Certifies` of `specs/` says
//! it over the paths of tpol_digest: the bytes spell the choices of the path, and the digest after each of its moves.
//! What `certify` gives is accepted with its position, and an accepted path gives the policy's digest.
#![tactic(auto)]

mod certificate;
mod certifying;
mod checking;
mod choice;
mod fault;
mod follow;
mod laws;
mod reading;
mod walk;

pub use certificate::Certificate;
pub use certifying::certify;
pub use checking::check;
pub use choice::{Choice, Choices};
pub use fault::CertFault;
pub use laws::{choices_are_steps, judgements_certify, paths_have_certificates};
