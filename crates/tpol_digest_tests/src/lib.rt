//! Tests of `tpol_digest` on outside values: the digests of policies and of their paths. They stand in a crate of
//! their own, over the one that they test, so that it is proved once and not a second time with its tests.
#![tactic(auto)]

#[cfg(test)]
mod digests;
