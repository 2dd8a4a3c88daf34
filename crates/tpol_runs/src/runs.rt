//! The runs of a script.

ghost use Rattle.std.specs.Prelude.{◌≡◌, ◌≤◌, ◌∷◌, ◌++◌, [], None, Some, false, length, option_map, position, true, IfOk, IfSome, OnOk, OnErr, ℕ};
ghost use Rattle.std.specs.Option.{option_copied};
ghost use Rattle.tpol_runs.specs.Courses.{begun, begun_blind, end_told, goes_on, heard_by, next_of, run_after};
ghost use Rattle.tpol_runs.specs.Runs.{has_number, run_at, with_run};
ghost use Rattle.tpol_runs.specs.declared.after.After.TheVariants.{Goes};

use crate::after::After;
use crate::ended::Ended;
use crate::numbered::Numbered;
use crate::run::Run;
use crate::sent::Sent;
use std::alloc::Global;
use std::marker::Model;
use std::mem::replace;
use tpol_base::{NoMemory, Text};
use tpol_driver::{BlindStart, Plan};

/// The runs of a script by their numbers. Contracts see the list of the runs that were begun, in order; a run
/// that is over has no state any more.
#[derive(Drop)]
pub struct Runs {
    runs: Vec<Numbered>,
    // The number of the run that heard last, and where it stands in the list.
    heard: Option<(u16, usize)>,
}

impl Model for Runs {
    ghost use Rattle.std.specs.Prelude.{List};
    ghost use Rattle.tpol_runs.specs.Runs.{IsPlaced};
    ghost use Rattle.tpol_runs.specs.declared.numbered.Numbered.{Numbered};

    ghost Value = { List Numbered };

    ghost view = { λ r. r.runs.items };

    ghost invariant = { λ r. IsPlaced r.runs.items r.heard };
}

impl Runs {
    /// No run; it takes no memory.
    pub fn new(alloc: Global) -> Runs
        ensures { result ≡ [] }
    {
        Runs {
            runs: Vec::new(alloc),
            heard: None,
        }
    }

    /// Begins a run of a plan, whose commands this client sends from this locality. After `NoMemory` the runs
    /// are as before.
    pub fn begin(
        &mut self,
        alloc: Global,
        number: u16,
        client: u32,
        locality: u8,
        plan: Plan,
    ) -> Result<(), NoMemory>
        requires moves { length plan.path.moves ≤ 512 }
        requires locality { locality ≤ 4 }
        ensures ok { OnOk result (self.new
            ≡ self.old ++ record { number = number; run = Some (begun client locality plan) }
            ∷ []) }
        ensures err { OnErr result (self.new ≡ self.old) }
    {
        let run = Some(Run::new(alloc, client, locality, plan));
        self.add(Numbered { number, run })
    }

    /// Begins a blind run on the paths of the policy of this name, whose commands this client sends from this
    /// locality. After `NoMemory` the runs are as before.
    pub fn begin_blind(
        &mut self,
        number: u16,
        client: u32,
        locality: u8,
        policy: Text,
        start: BlindStart,
    ) -> Result<(), NoMemory>
        requires locality { locality ≤ 4 }
        ensures ok { OnOk result (self.new
            ≡ self.old ++ record {
              number = number;
              run = Some
                  (begun_blind client locality policy start.plan);
            } ∷ []) }
        ensures err { OnErr result (self.new ≡ self.old) }
    {
        let run = Some(Run::blind(client, locality, policy, start));
        self.add(Numbered { number, run })
    }

    /// Begins a run that has no path to go: it is over at once. After `NoMemory` the runs are as before.
    pub fn begin_without_path(&mut self, number: u16) -> Result<(), NoMemory>
        ensures ok { OnOk result (self.new
            ≡ self.old ++ record { number = number; run = None } ∷ []) }
        ensures err { OnErr result (self.new ≡ self.old) }
    {
        self.add(Numbered { number, run: None })
    }

    /// The next command of the run of this number; `None` where it is over. It fails only where memory ran out.
    pub fn next(&self, alloc: Global, number: u16) -> Result<Option<Sent>, NoMemory>
        ensures sent { IfOk result (λ sent. sent ≡ next_of (run_at self.now number)) }
        ensures locality { IfOk result (λ sent. IfSome sent (λ command. command.locality ≤ 4)) }
    {
        match self.find(number) {
            Some(run) => Ok(Some(run.next(alloc)?)),
            None => Ok(None),
        }
    }

    /// Hands the reply to the last command to the run of this number; the machine's reset count was this when it came.
    /// Where the run is over with it, its end is told, this once. A run that was over stays so, and tells nothing. After
    /// `NoMemory` the runs are as before.
    pub fn take(
        &mut self,
        alloc: Global,
        number: u16,
        reset_count: u32,
        reply: &[u8],
    ) -> Result<Option<Ended>, NoMemory>
        ensures told { IfOk result (λ told. told
            ≡ end_told (heard_by (run_at self.old number) reset_count reply.now)) }
        ensures runs { OnOk result (self.new
            ≡ with_run self.old number
            (goes_on (heard_by (run_at self.old number) reset_count reply.now))) }
        ensures err { OnErr result (self.new ≡ self.old) }
    {
        let Some(place) = self.place_of(number) else {
            return Ok(None);
        };
        self.heard = Some((number, place));
        hear(&mut self.runs[place].run, alloc, reset_count, reply)
    }

    // Puts an entry behind the others. After `NoMemory` the runs are as before.
    fn add(&mut self, entry: Numbered) -> Result<(), NoMemory>
        ensures ok { OnOk result (self.new ≡ self.old ++ entry ∷ []) }
        ensures err { OnErr result (self.new ≡ self.old) }
    {
        self.runs.push(entry)?;
        Ok(())
    }

    // The run of this number, unless it is over.
    fn find(&self, number: u16) -> Option<&Run>
        ensures { option_copied result ≡ run_at self.now number }
    {
        let Some(place) = self.place_of(number) else {
            return None;
        };
        self.runs[place].run.as_ref()
    }

    // Where the run of this number stands in the list.
    fn place_of(&self, number: u16) -> Option<usize>
        ensures { result ≡ position (has_number number) self.now }
    {
        match self.heard {
            Some((heard, place)) if heard == number => Some(place),
            _ => self.runs.iter().position(|entry| entry.number == number),
        }
    }
}

// Hands a reply to a run, unless it is over: its end, where it is over now. After `NoMemory` the run is as before.
fn hear(
    run: &mut Option<Run>,
    alloc: Global,
    reset_count: u32,
    reply: &[u8],
) -> Result<Option<Ended>, NoMemory>
    ensures told { IfOk result (λ told. told
        ≡ end_told (heard_by run.old reset_count reply.now)) }
    ensures run { OnOk result (run.new ≡ goes_on (heard_by run.old reset_count reply.now)) }
    ensures err { OnErr result (run.new ≡ run.old) }
{
    if step(run, alloc, reply)? {
        return Ok(None);
    }
    let Some(underway) = replace(run, None) else {
        return Ok(None);
    };
    let (after, told) = hand(underway, alloc, reset_count, reply);
    // Meanwhile None stands there.
    drop(replace(run, after));
    told
}

// Goes on with the reply in place, where the run can. Answers whether it did; else nothing changes.
fn step(run: &mut Option<Run>, alloc: Global, reply: &[u8]) -> Result<bool, NoMemory>
    ensures goes { IfOk result (λ stepped. stepped ≡ true → (reset_count : ℕ)
        → heard_by run.old reset_count reply.now ≡ option_map Goes run.new) }
    ensures same { IfOk result (λ stepped. stepped ≡ false → run.new ≡ run.old) }
    ensures err { OnErr result (run.new ≡ run.old) }
{
    match run {
        Some(run) => run.step(alloc, reply),
        None => Ok(false),
    }
}

// Hands a reply to a run: the run, where it goes on, and its end, where it is over now.
fn hand(
    run: Run,
    alloc: Global,
    reset_count: u32,
    reply: &[u8],
) -> (Option<Run>, Result<Option<Ended>, NoMemory>)
    ensures told { IfOk result.1 (λ told. told
        ≡ end_told (Some (run_after run reset_count reply.now))) }
    ensures run { OnOk result.1 (result.0 ≡ goes_on (Some (run_after run reset_count reply.now))) }
    ensures back { OnErr result.1 (result.0 ≡ Some run) }
{
    match run.take(alloc, reset_count, reply) {
        Ok(After::Goes(run)) => (Some(run), Ok(None)),
        Ok(After::Ends(ended)) => (None, Ok(Some(ended))),
        Err((run, no_memory)) => (Some(run), Err(no_memory)),
    }
}
