//! Tests of `tpol_fill` and `tpol_name` on outside values: Names, and policies whose entities are filled in. They
//! stand in a crate of their own, over the ones that they test, so that those are proved once and not a second time
//! with their tests.
#![tactic(auto)]

#[cfg(test)]
mod entities;
#[cfg(test)]
mod filling;
#[cfg(test)]
mod machine;
#[cfg(test)]
mod names;
#[cfg(test)]
mod vectors;
