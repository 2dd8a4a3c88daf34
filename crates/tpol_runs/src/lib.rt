//! The runs of a script by their numbers: each run's next command, and what a reply makes of it.
//!
//! A run is driven on one path, or blindly on the paths of a policy. Contracts see it as who sends its commands, from
//! where, and where its driver stands, and all runs as their list. The layer above begins a run with its plan, executes
//! the command that `next` gives, and hands the reply to `take`, which tells the end of a run once, with the tickets
//! that a run on one path has earned.
#![tactic(auto)]

mod after;
mod blind_state;
mod driver_state;
mod ended;
mod laws;
mod numbered;
mod path_behind;
mod path_driver;
mod run;
mod runs;
mod sent;
mod state;

pub use after::After;
pub use ended::Ended;
pub use laws::{runs_are_driven, runs_end};
pub use numbered::Numbered;
pub use run::Run;
pub use runs::Runs;
pub use sent::Sent;
