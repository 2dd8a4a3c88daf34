//! Tests of `tpol_top` on outside values. They stand in a crate of their own, over the one that they test, so that it is
//! proved once and not a second time with its tests.
#![tactic(auto)]

#[cfg(test)]
mod runs;
#[cfg(test)]
mod tests;
