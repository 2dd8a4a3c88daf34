//! Tests of the adapters of `tpol_base`: shelves, sources and sinks over files and memory. They stand in a crate of
//! their own, over the one that they test, so that it is proved once and not a second time with its tests.
#![tactic(auto)]

#[cfg(test)]
mod shelves;
