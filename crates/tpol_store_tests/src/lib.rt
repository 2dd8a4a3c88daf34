//! Tests of `tpol_store` on outside values: which documents a shelf gives. They stand in a crate of their own, over the
//! one that they test, so that it is proved once and not a second time with its tests.
#![tactic(auto)]

#[cfg(test)]
mod store;
