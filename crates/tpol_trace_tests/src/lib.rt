//! Tests of `tpol_trace` on outside values: openings, and the paths that lead to their digests. They stand in a
//! crate of their own, over the one that they test, so that it is proved once and not a second time with its tests.
#![tactic(auto)]

#[cfg(test)]
mod openings;
