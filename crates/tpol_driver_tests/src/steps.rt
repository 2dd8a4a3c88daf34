//! The steps of a run: a command that is to be made, and the reply to it.

use crate::ends::{Wanted, is_wanted};
use std::alloc::Global;
use tpol_base::NoMemory;
use tpol_runs::{Ended, Runs, Sent};

/// A command of a run, and its reply.
#[derive(Clone, Copy)]
pub struct Step<'a> {
    pub command: &'static [u8],
    pub reply: &'a [u8],
}

/// The number of the one run.
pub const RUN: u16 = 1;

fn is_sent(sent: Result<Option<Sent>, NoMemory>, command: &[u8]) -> bool {
    match sent {
        Ok(Some(sent)) => sent.buffer.as_slice() == command,
        _ => false,
    }
}

fn is_told(told: Result<Option<Ended>, NoMemory>, wanted: &Wanted) -> bool {
    match told {
        Ok(Some(ended)) => is_wanted(&ended, wanted),
        Ok(None) => matches!(wanted, Wanted::GoesOn),
        Err(_) => false,
    }
}

/// Whether the run makes the command of this step, and has the end that is wanted with its reply.
fn turns(runs: &mut Runs, alloc: Global, step: &Step, wanted: &Wanted) -> bool {
    is_sent(runs.next(alloc, RUN), step.command)
        && is_told(runs.take(alloc, RUN, 0, step.reply), wanted)
}

/// Whether the run goes on with each of these steps.
pub fn goes_on(runs: &mut Runs, alloc: Global, steps: &[Step]) -> bool {
    for step in steps {
        if !turns(runs, alloc, step, &Wanted::GoesOn) {
            return false;
        }
    }
    true
}

/// Whether the run goes on with each of these steps but the last one, and ends with it as wanted.
pub fn ends(runs: &mut Runs, alloc: Global, steps: &[Step], wanted: &Wanted) -> bool {
    match steps.split_last() {
        Some((last, others)) => { goes_on(runs, alloc, others) && turns(runs, alloc, last, wanted) }
        None => false,
    }
}
