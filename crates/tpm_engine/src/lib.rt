//! A machine: a TPM of which the journal of its events tells everything.
//!
//! A `Machine` executes whole command buffers of any clients, and changes of its surroundings: time, physical
//! presence, a TPM Reset. Each is one event. Contracts see a machine as its setup, its journal, newest event
//! first, and its room for further events: every answer is a function of the setup and of the events before.
#![tactic(auto)]

mod authorization;
mod closing;
mod closing_use;
mod commands;
mod early;
mod entry;
mod event;
mod journal;
mod laws;
mod machine;
mod opened;
mod policy_commands;
mod prepared;
mod respond;
mod session_commands;
mod stop;
mod success;
mod tables;

use closing_use::Closing;
pub use event::{Event, EventView};
pub use journal::Journal;
pub use laws::{
    calls_make_the_journal, failures_change_nothing, saved_sessions_come_back_once,
    tickets_are_accepted,
};
pub use machine::Machine;
pub use opened::{Executed, Opened};
use prepared::Prepared;
use stop::Stop;
use success::Success;
use tables::Tables;
pub use tpm_rules::{Denial, Outcome};
