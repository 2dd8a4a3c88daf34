//! A client that carries out one path by marshalled commands: it starts a policy session, sends the command
//! of each move, uses the session on its goal, and ends the session where the use did not. A blind run carries out
//! one path after another, with the same session, until one is served.
//!
//! The driver trusts nothing but the replies. Each state is a type of its own: its `next` is the command that it waits
//! with, and its `take` consumes it with the reply, or `step` goes on in place. Contracts see a state as its plan and
//! where it stands, and each call as `sends` and `hears` of that: `drive` folds them over the replies, and
//! `blind_drive` does those of a blind run.
#![tactic(auto)]

mod answer;
mod asserting;
mod attempt;
mod blind_again;
mod blind_asserting;
mod blind_closing;
mod blind_end;
mod blind_next;
mod blind_plan;
mod blind_ready;
mod blind_start;
mod closing;
mod commands;
mod end;
mod goal_use;
mod laws;
mod next;
mod path_plan;
mod plan;
mod planned;
mod ready;
mod sending;
mod session;
mod step;
mod tickets;
mod tries;

pub use asserting::Asserting;
pub use blind_again::BlindAgain;
pub use blind_asserting::BlindAsserting;
pub use blind_closing::BlindClosing;
pub use blind_end::{BlindEnd, Tried, Tries};
pub use blind_next::{BlindNext, BlindOver};
pub use blind_plan::BlindPlan;
pub use blind_ready::BlindReady;
pub use blind_start::BlindStart;
pub use closing::Closing;
pub use end::{End, Stage};
pub use laws::{
    bad_replies_have_their_causes, blind_driving_ends, blind_driving_goes_on, driving_ends,
    driving_goes_on, mirrored,
};
pub use next::{Next, Over};
pub use plan::Plan;
pub use planned::Planned;
pub use ready::Ready;
pub use tickets::{HeldTicket, Tickets};
