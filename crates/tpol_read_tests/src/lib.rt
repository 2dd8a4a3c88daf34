//! Tests of `tpol_read` on outside values: which documents are policies, and the faults of others. They stand in a
//! crate of their own, over the one that they test, so that it is proved once and not a second time with its tests.
#![tactic(auto)]

#[cfg(test)]
mod read;
