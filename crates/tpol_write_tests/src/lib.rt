//! Tests of `tpol_write` and `tpol_adopt` on outside values: the canonical text of policies, and exports of FAPI.
//! They stand in a crate of their own, over the ones that they test, so that those are proved once and not a second
//! time with their tests.
#![tactic(auto)]

#[cfg(test)]
mod canonical;
#[cfg(test)]
mod exports;
#[cfg(test)]
mod write;
