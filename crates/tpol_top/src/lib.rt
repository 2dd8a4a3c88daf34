//! The top call: everything that the program does, over a source, a sink and a shelf that are handed in.
//!
//! `policy_main` is `run_program` of tpol_front for the commands of this program: it reads the words, then the source,
//! has the command make its answer (its lines and its verdict), and prints that. What a run prints, answers and leaves
//! on the shelf is `report_of`, a definition over the definitions of the crates below. A command is a file of its own,
//! but `lint` stands in the file of `paths`, tpol_perform carries out `run` and `explain`, and tpol_generate `gen`.
//! Each command goes through steps, each of which gives a value or ends the run with an answer.
#![tactic(auto)]

mod canon;
mod check;
mod commands;
mod compile;
mod import;
mod paths;
mod request;
mod top;

pub use top::policy_main;
pub use tpol_front::Status;
