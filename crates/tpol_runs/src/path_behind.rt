//! The driver of a run on one path behind a reply.

ghost use Rattle.std.specs.Prelude.{◌≡◌, ◌≤◌, false, length, true, List, IfErr, IfOk, OnErr, ℕ};
ghost use Rattle.tpol_driver.specs.Driving.{Standing};
ghost use Rattle.tpol_driver.specs.States.{IsNext};
ghost use Rattle.tpol_driver.specs.declared.plan.Plan.{Plan as PlanOf};
ghost use Rattle.tpol_driver.specs.declared.tickets.HeldTicket.{HeldTicket as HeldTicketOf};
ghost use Rattle.tpol_runs.specs.declared.ended.Ended.TheVariants as ends;
ghost use Rattle.tpol_runs.specs.Courses.{driven_on};
ghost use Rattle.tpol_runs.specs.Earned.{with_counts};
ghost use Rattle.tpol_runs.specs.PathBehind.{IsPathBehind};
ghost use Rattle.tpol_runs.specs.State.{earned_of_next};
ghost use Rattle.tpol_runs.specs.declared.path_behind.PathBehind.TheVariants as behinds;

use crate::ended::Ended;
use crate::path_driver::PathDriver;
use crate::state::{State, take};
use std::alloc::Global;
use tpol_base::NoMemory;
use tpol_driver::{Next, Over, Tickets};

// A driver on one path behind a reply: it goes on, or it is at its end.
#[derive(Drop)]
pub enum PathBehind {
    Goes(PathDriver),
    Ends(Ended),
}

impl PathDriver {
    // Goes on with a reply that comes at this reset count of the machine. With `NoMemory` the driver comes back
    // unchanged.
    pub fn take(
        self,
        alloc: Global,
        reset_count: u32,
        reply: &[u8],
    ) -> Result<PathBehind, (PathDriver, NoMemory)>
        ensures behind { IfOk result (IsPathBehind (driven_on self reset_count reply.now)) }
        ensures back { IfErr result (λ refused. refused.0 ≡ self) }
    {
        let PathDriver { state, mut counts } = self;
        match counts.push(reset_count) {
            Ok(()) => match take(state, alloc, reply) {
                Ok(next) => Ok(behind(next, counts)),
                Err((state, no_memory)) => {
                    counts.pop();
                    Err((PathDriver { state, counts }, no_memory))
                }
            },
            Err(_) => Err((PathDriver { state, counts }, NoMemory)),
        }
    }

    // Goes on with the reply in place, where it does no more than accept a plain move with another behind it. Answers
    // whether it did; else nothing changes, and `take` goes on.
    pub fn step(&mut self, alloc: Global, reply: &[u8]) -> Result<bool, NoMemory>
        ensures goes { IfOk result (λ stepped. stepped ≡ true → (reset_count : ℕ)
            → IsPathBehind (driven_on self.old reset_count reply.now) (behinds.Goes self.new)) }
        ensures same { IfOk result (λ stepped. stepped ≡ false → self.new ≡ self.old) }
        ensures err { OnErr result (self.new ≡ self.old) }
    {
        match &mut self.state {
            State::Asserting(asserting) => asserting.step(alloc, reply),
            _ => Ok(false),
        }
    }
}

// A driver in its next state, with the first of these reset counts.
fn behind(next: Next, mut counts: Vec<u32>) -> PathBehind
    requires { length (earned_of_next next) ≤ length counts.items }
    ensures { (plan : PlanOf) (earned : List HeldTicketOf) (standing : Standing)
        → IsNext plan earned standing next
        → IsPathBehind (record {
          plan = plan;
          standing = standing;
          earned = with_counts earned
              counts.items;
        }) result }
{
    counts.truncate(earned_count(&next));
    let state = match next {
        Next::Asserting(asserting) => State::Asserting(asserting),
        Next::Ready(ready) => State::Ready(ready),
        Next::Closing(closing) => State::Closing(closing),
        Next::Over(over) => return PathBehind::Ends(ended(over, counts.as_slice())),
    };
    PathBehind::Goes(PathDriver { state, counts })
}

// How many tickets the run has earned.
fn earned_count(next: &Next) -> usize
    ensures { result ≡ length (earned_of_next next.now) }
{
    match next {
        Next::Asserting(asserting) => asserting.earned().len(),
        Next::Ready(ready) => ready.earned().len(),
        Next::Closing(closing) => closing.earned().len(),
        Next::Over(over) => over.earned.len(),
    }
}

// The end of a run whose tickets were answered at these reset counts.
fn ended(over: Over, counts: &[u32]) -> Ended
    ensures { result ≡ ends.Sighted over.end (with_counts over.earned counts.now) }
{
    let Over { end, mut earned } = over;
    set_counts(&mut earned, counts);
    Ended::Sighted { end, earned }
}

fn set_counts(tickets: &mut Tickets, counts: &[u32])
    ensures { tickets.new ≡ with_counts tickets.old counts.now }
{
    for place in 0..counts.len() {
        if let Some(ticket) = tickets.get_mut(place) {
            ticket.reset_count = counts[place];
        }
    }
}
