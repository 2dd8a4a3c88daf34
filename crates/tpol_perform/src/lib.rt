//! A scene carried out: the events of its script on a machine, one after another, and what is printed of each.
//!
//! Contracts see how far a scene was carried out as a `PerformanceState`: what the machine started from, its
//! journal, the runs that were begun, the tickets that are kept for later ones, and the lines. `performed` is the
//! fold over the events; `IsExplained` says what the lines of `explain` tell of every command of the journal that
//! asks for a policy session. The layers above take `perform_scene` for the commands `run` and `explain`.
//! `Performance` starts a machine and carries out one event after another, and `NewRun` is what a run begins by:
//! tpol_generate, which has a policy and a client of its own and no script, takes the two for the command `gen`.
//! tpol_who takes the same two, and `happen` for each event of a script, for the command `who`.
//!
//! Where a call fails beside a large value, the value is let go by `drop`: the proof of it is then one call, in place of
//! a path through all its fields.
#![tactic(auto)]

mod begin;
mod begin_blind;
mod blind_end;
mod commands_told;
mod new_run;
mod openings;
mod paths;
mod perform;
mod performance;
mod script;
mod tickets;
mod tries;
mod turns;

pub use new_run::NewRun;
pub use perform::perform_scene;
pub use performance::Performance;
pub use tickets::Kept;
