//! Who can go where: a scene is carried out as `run` does it, and of each run that its script begins it is told, right
//! before it begins, which paths of its policy it can go, and what stands in the way of the others.
//!
//! `who` is the command. Its lines are `scene_told`, a fold over the script beside that of tpol_perform, whose
//! `Performance::happen` carries out each event. `runs_are_told` is the law of these lines: what they say is what
//! stands in the way, and the first path that they say can be gone is the one that the run begins on.
#![tactic(auto)]

mod command;
mod laws;
mod lines;
mod paths;
mod survey;

pub use command::who;
pub use laws::runs_are_told;
