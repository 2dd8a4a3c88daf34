//! Tests of `tpol_driver` on outside values: of its sighted runs and of its blind ones, as `tpol_runs` drives them. They stand
//! in a crate of their own, over the ones that they test, so that those are proved once and not a second time with their
//! tests.
#![tactic(auto)]

#[cfg(test)]
mod blind;
#[cfg(test)]
mod courses;
#[cfg(test)]
mod ends;
#[cfg(test)]
mod plans;
#[cfg(test)]
mod sighted;
#[cfg(test)]
mod steps;
#[cfg(test)]
mod tickets;
#[cfg(test)]
mod vectors;
