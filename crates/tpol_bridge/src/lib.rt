//! The top call of the second program, for policy documents as FAPI exports them.
//!
//! `bridge_main` is `run_program` of tpol_front for the commands of this program: `adopt`, which writes an export in
//! the profile's one spelling, `export`, which writes it in FAPI's, or tells where FAPI 3.2.1 computes another digest of
//! it, `digests`, which tells the digest after each element, and where the export has another, and `steps`, which tells
//! the policy commands of one path, with the digest after each. These read the policy of `normal` (tpol_adopt) of the
//! document in the source. `who`, which tells who can go where, reads a scene, and is that of tpol_who. What a run
//! prints, answers and leaves on the shelf is `report_of`, a definition over the definitions of the crates below.
#![tactic(auto)]

mod adopt;
mod commands;
mod differences;
mod digests;
mod export;
mod fapi_text;
mod laws;
mod request;
mod steps;
mod top;

pub use laws::profile_stays;
pub use top::bridge_main;
pub use tpol_front::Status;
