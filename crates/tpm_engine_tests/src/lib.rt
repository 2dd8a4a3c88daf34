//! Tests of the modelled TPM as a whole, on outside values. They stand in a crate of their own, over the ones that
//! they test, so that those are proved once and not a second time with their tests.
#![tactic(auto)]

#[cfg(test)]
mod exercises;
#[cfg(test)]
mod machine;
