//! Tests of `tpol_cert` on outside values: certificates of policies, and what is no certificate. They stand in a
//! crate of their own, over the one that they test, so that it is proved once and not a second time with its tests.
#![tactic(auto)]

#[cfg(test)]
mod certificates;
