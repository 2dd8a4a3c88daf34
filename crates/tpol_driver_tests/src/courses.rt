//! What a run is to do, as a table of the tests has it, and how it ends.
//!
//! A function that holds a plan, or the runs, does little more: the others are lent them.

ghost use Rattle.std.specs.Prelude.{◌≤◌, All, IsTrue, length};

use crate::ends::Wanted;
use crate::plans::{Act, push_entries, push_moves, push_paths, push_secrets, push_tickets};
use crate::steps::{RUN, Step, ends, goes_on};
use std::alloc::Global;
use tpol_base::{Digest32, NoMemory, Text};
use tpol_driver::{BlindPlan, BlindStart, Plan, Stage, Tickets};
use tpol_goal::{Goal, Grants, Secrets};
use tpol_name::Directory;
use tpol_runs::Runs;
use tpol_tree::{Moves, Path, PathSteps, Paths};

/// What a client uses its session for.
#[derive(Clone, Copy)]
pub enum Use {
    Unseal { object: u32 },
    NvRead { index: u32, size: u16, offset: u16 },
}

/// What a run is to do, on one path or blindly on several, with what it holds: its tickets by policyRef and digest, each of
/// the endorsement hierarchy.
pub struct Course {
    pub path: &'static [Act],
    pub blind_paths: &'static [&'static [Act]],
    pub goal: Use,
    pub secrets: &'static [(u32, &'static [u8])],
    pub keys: &'static [(u32, &'static [u8])],
    pub directory: &'static [(u32, [u8; 32], u32)],
    pub tickets: &'static [(&'static [u8], [u8; 32])],
    pub nonce_seed: [u8; 32],
}

/// The steps of a run and its end, with replies by which it fails, and FlushContext of its session.
pub struct Script {
    pub steps: &'static [Step<'static>],
    pub wanted: Wanted<'static>,
    pub failures: &'static [Failing<'static>],
    pub flush: &'static [u8],
}

/// A reply to the step at this place by which a run fails, and its end.
#[derive(Clone, Copy)]
pub struct Failing<'a> {
    pub place: usize,
    pub reply: &'a [u8],
    pub wanted: Wanted<'static>,
}

fn goal(course: &Course) -> Goal {
    match course.goal {
        Use::Unseal { object } => Goal::Unseal { object },
        Use::NvRead {
            index,
            size,
            offset,
        } => Goal::NvRead {
            index,
            size,
            offset,
        },
    }
}

/// The plan of a run without its moves, its grants and its directory.
fn empty_plan(alloc: Global, course: &Course) -> Plan {
    Plan {
        path: Path {
            steps: PathSteps::new(alloc),
            moves: Moves::new(alloc),
            outside: false,
        },
        goal: goal(course),
        grants: Grants {
            secrets: Secrets::new(alloc),
            keys: Secrets::new(alloc),
        },
        directory: Directory::new(alloc),
        nonce_seed: Digest32 {
            bytes: course.nonce_seed,
        },
        tickets: Tickets::new(alloc),
    }
}

fn fill(plan: &mut Plan, alloc: Global, course: &Course) -> Result<(), NoMemory> {
    push_moves(&mut plan.path.moves, alloc, course.path)?;
    push_secrets(&mut plan.grants.secrets, alloc, course.secrets)?;
    push_secrets(&mut plan.grants.keys, alloc, course.keys)?;
    push_tickets(&mut plan.tickets, alloc, course.tickets)?;
    push_entries(&mut plan.directory, alloc, course.directory)
}

/// Begins a run on one path.
fn begin_sighted(runs: &mut Runs, alloc: Global, plan: Plan) -> bool {
    if plan.complete() && plan.path.moves.len() <= 512 {
        return runs.begin(alloc, RUN, 1, 0, plan).is_ok();
    }
    drop(plan);
    false
}

/// Whether the first path of this plan is the first one that is tried, and its paths are as few and as short as a
/// run may have them.
fn begins_on_the_first(plan: &BlindPlan) -> bool
    ensures few { IsTrue result → length plan.now.paths ≤ 64 }
    ensures short { IsTrue result → All (λ path. length path.moves ≤ 512) plan.now.paths }
{
    let paths = plan.paths.as_slice();
    paths.len() <= 64 && plan.first() == Some(1) && paths.iter().all(|path| path.moves.len() <= 512)
}

/// The plan of a blind run: that of a run on one path, with these paths.
fn blind_plan(plan: Plan, paths: Paths) -> BlindPlan {
    let Plan {
        goal,
        grants,
        directory,
        nonce_seed,
        ..
    } = plan;
    BlindPlan {
        paths,
        goal,
        grants,
        directory,
        nonce_seed,
    }
}

fn begin_from(runs: &mut Runs, alloc: Global, start: BlindStart) -> bool {
    runs.begin_blind(RUN, 1, 0, Text::new(alloc), start).is_ok()
}

fn begin_on(runs: &mut Runs, alloc: Global, plan: BlindPlan) -> bool {
    if !begins_on_the_first(&plan) {
        drop(plan);
        return false;
    }
    match BlindStart::new(alloc, plan) {
        Ok(start) => begin_from(runs, alloc, start),
        Err((plan, _)) => {
            drop(plan);
            false
        }
    }
}

/// Begins a blind run.
fn begin_blind(runs: &mut Runs, alloc: Global, plan: Plan, table: &[&[Act]]) -> bool {
    let mut paths = Paths::new(alloc);
    if push_paths(&mut paths, alloc, table).is_err() {
        drop(paths);
        drop(plan);
        return false;
    }
    begin_on(runs, alloc, blind_plan(plan, paths))
}

fn begin(runs: &mut Runs, alloc: Global, course: &Course) -> bool {
    let mut plan = empty_plan(alloc, course);
    if fill(&mut plan, alloc, course).is_err() {
        drop(plan);
        return false;
    }
    if course.blind_paths.is_empty() {
        begin_sighted(runs, alloc, plan)
    } else {
        begin_blind(runs, alloc, plan, course.blind_paths)
    }
}

/// Whether a run goes on with these steps, and ends as wanted with the last one of those behind them.
fn ends_behind(
    alloc: Global,
    course: &Course,
    before: &[Step],
    behind: &[Step],
    wanted: &Wanted,
) -> bool {
    let mut runs = Runs::new(alloc);
    let answer = begin(&mut runs, alloc, course)
        && goes_on(&mut runs, alloc, before)
        && ends(&mut runs, alloc, behind, wanted);
    drop(runs);
    answer
}

/// Whether a run fails as wanted by another reply at this place. Behind it stands the flush of the session, if there is
/// one, which no reply answers.
pub fn fails(alloc: Global, course: &Course, script: &Script, failing: &Failing) -> bool {
    let (before, behind) = script.steps.split_at(failing.place.min(script.steps.len()));
    let Some(step) = behind.first() else {
        return false;
    };
    let steps = [
        Step {
            command: step.command,
            reply: failing.reply,
        },
        Step {
            command: script.flush,
            reply: b"",
        },
    ];
    let count = if failing.place > 0 { 2 } else { 1 };
    ends_behind(alloc, course, before, &steps[..count], &failing.wanted)
}

/// Whether a run ends with its steps as its script says, and fails as it says.
pub fn goes_as_told(alloc: Global, course: &Course, script: &Script) -> bool {
    for failing in script.failures {
        if !fails(alloc, course, script, failing) {
            return false;
        }
    }
    ends_behind(alloc, course, &[], script.steps, &script.wanted)
}

/// Whether a run ends and fails as each of these scripts says.
pub fn goes_by_each(alloc: Global, course: &Course, scripts: &[Script]) -> bool {
    for script in scripts {
        if !goes_as_told(alloc, course, script) {
            return false;
        }
    }
    true
}

/// Whether the run hears a bad reply at this place, wherever the step's reply is cut short.
pub fn fails_when_cut(
    alloc: Global,
    course: &Course,
    script: &Script,
    place: usize,
    stage: Stage,
) -> bool {
    let Some(step) = script.steps.get(place) else {
        return false;
    };
    for length in 0..step.reply.len() {
        let failing = Failing {
            place,
            reply: &step.reply[..length],
            wanted: Wanted::Failed(0, stage),
        };
        if !fails(alloc, course, script, &failing) {
            return false;
        }
    }
    true
}
