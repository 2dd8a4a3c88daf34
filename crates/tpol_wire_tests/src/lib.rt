//! Tests of `tpol_wire` on outside values: command buffers, replies, and the codes of refusals. They stand in a
//! crate of their own, over the one that they test, so that it is proved once and not a second time with its tests.
#![tactic(auto)]

#[cfg(test)]
mod wire;
