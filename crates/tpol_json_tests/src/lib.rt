//! Tests of `tpol_json` on outside values: which texts it reads, and as what. They stand in a crate of their own,
//! over the one that they test, so that it is proved once and not a second time with its tests.
#![tactic(auto)]

#[cfg(test)]
mod json;
