//! The policy commands of a path, for whoever sends them to a TPM: each on a line with its arguments and with the digest
//! that a policy session has after it.
//!
//! `path_line` is the path's own line, as `paths` prints it, a definition of tpol_lines, and `push_steps` adds the
//! lines of its commands, `step_lines` of `specs/`, a definition over its moves. The program above prints both.
#![tactic(auto)]

mod arguments;
mod assertions;
mod kinds;
mod laws;
mod paths;
mod steps;
mod values;

pub use laws::{last_steps_have_policy_digest, steps_have_prefix_digests};
pub use paths::path_line;
pub use steps::push_steps;
