//! Tests of `tpol_lines` on outside values: the lines that tell of paths, runs and openings. They stand in a crate
//! of their own, over the one that they test, so that it is proved once and not a second time with its tests.
#![tactic(auto)]

#[cfg(test)]
mod lines;
