//! Tests of the parts of the modelled TPM on outside values: policy commands, sessions and NV indices. They stand
//! in a crate of their own, over the ones that they test, so that those are proved once and not a second time with
//! their tests.
#![tactic(auto)]

#[cfg(test)]
mod answers;
#[cfg(test)]
mod indices;
#[cfg(test)]
mod policy_commands;
#[cfg(test)]
mod saved_sessions;
#[cfg(test)]
mod sessions;
