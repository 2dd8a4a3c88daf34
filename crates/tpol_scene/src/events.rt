//! The events of a script.

ghost use Rattle.std.specs.Prelude.{◌≡◌, codes, None};
ghost use Rattle.serde_json.specs.View.{view};
ghost use Rattle.tpol_entities.specs.Entities.{policy_name_in};
ghost use Rattle.tpol_json.specs.Reading.{Gives};
ghost use Rattle.tpol_json.specs.Members.{optional};
ghost use Rattle.tpol_entities.specs.Members.{needed};
ghost use Rattle.tpol_scene.specs.Scripts.{begin_in, begun_run_in, buffer_in, command_in, event_by, event_kind_in, event_of_word, is_begun, locality_in, new_run_in, presence_event_in, run_in, some_times_in, time_event_in, turn_in};

use crate::cast::Cast;
use crate::clients::needed_listed_client;
use crate::goals::needed_goal;
use crate::script::ScriptEvent;
use serde_json::Value;
use std::alloc::Global;
use tpol_base::Blob;
use tpol_entities::{NamedPolicy, PartFault, SceneKind, needed_u32, policy_name};
use tpol_json::{PlaceRef, any_bytes, check_limit, member, needed, refuse, truth, unsigned};

/// The most runs of a scene.
const RUNS: usize = 256;

/// The greatest number of a run.
const MAX_RUN: u64 = 65_535;

/// The most commands of one turn.
const MAX_TIMES: u64 = 2000;

/// The kinds of events.
#[derive(Clone, Copy)]
pub enum EventKind {
    Command,
    Begin,
    Turn,
    Time,
    Presence,
    Reset,
}

/// The member `event`: the kind of an event. `Missing` without it, `WrongKind` for what is no text, and `UnknownKind`
/// for a text that is none of the six words, in these letters.
pub fn needed_event_kind(
    alloc: Global,
    item: &Value,
    place: &PlaceRef<'_>,
) -> Result<EventKind, PartFault>
    ensures { Gives result (needed event_kind_in (codes "event") (view item.now) place.now) }
{
    let (kind, place) = needed(alloc, item, "event", place)?;
    event_kind(alloc, kind, &place)
}

// The kind that a text names, exactly so.
fn event_kind(alloc: Global, value: &Value, place: &PlaceRef<'_>) -> Result<EventKind, PartFault>
    ensures { Gives result (event_kind_in (view value.now) place.now) }
{
    match value {
        Value::String(word) => event_of_word(alloc, word.as_str(), place),
        _ => refuse(alloc, SceneKind::WrongKind, place),
    }
}

fn event_of_word(alloc: Global, word: &str, place: &PlaceRef<'_>) -> Result<EventKind, PartFault>
    ensures { Gives result (event_of_word word.now place.now) }
{
    match word {
        "command" => Ok(EventKind::Command),
        "begin" => Ok(EventKind::Begin),
        "turn" => Ok(EventKind::Turn),
        "time" => Ok(EventKind::Time),
        "presence" => Ok(EventKind::Presence),
        "reset" => Ok(EventKind::Reset),
        _ => refuse(alloc, SceneKind::UnknownKind, place),
    }
}

/// Reads what stands in an event behind its kind. `runs` are those that were begun before.
#[tactic(auto, unfolding(crate::specs::Scripts::event_by))]
pub fn event_by(
    alloc: Global,
    kind: EventKind,
    cast: &Cast,
    runs: &[u16],
    item: &Value,
    place: &PlaceRef<'_>,
) -> Result<ScriptEvent, PartFault>
    ensures { Gives result (event_by kind cast.now runs.now (view item.now) place.now) }
{
    match kind {
        EventKind::Command => read_command(alloc, item, place),
        EventKind::Begin => read_begin(alloc, cast, runs, item, place),
        EventKind::Turn => read_turn(alloc, runs, item, place),
        EventKind::Time => read_time(alloc, item, place),
        EventKind::Presence => read_presence(alloc, item, place),
        EventKind::Reset => Ok(ScriptEvent::Reset),
    }
}

#[tactic(auto, unfolding(crate::specs::Scripts::command_in))]
fn read_command(alloc: Global, item: &Value, place: &PlaceRef<'_>) -> Result<ScriptEvent, PartFault>
    ensures { Gives result (command_in (view item.now) place.now) }
{
    let client = needed_u32(alloc, item, "client", place)?;
    let locality = optional_locality(alloc, item, place)?;
    let buffer = needed_buffer(alloc, item, place)?;
    Ok(ScriptEvent::Command {
        client,
        locality,
        buffer,
    })
}

#[tactic(auto, unfolding(crate::specs::Scripts::begin_in))]
fn read_begin(
    alloc: Global,
    cast: &Cast,
    runs: &[u16],
    item: &Value,
    place: &PlaceRef<'_>,
) -> Result<ScriptEvent, PartFault>
    ensures { Gives result (begin_in cast.now runs.now (view item.now) place.now) }
{
    check_limit(alloc, runs.len(), RUNS, place)?;
    let run = needed_new_run(alloc, runs, item, place)?;
    let client = needed_listed_client(alloc, cast.clients.as_slice(), item, place)?;
    let locality = optional_locality(alloc, item, place)?;
    let named = needed_policy(alloc, item, place)?;
    match needed_goal(alloc, &cast.entities, item, place) {
        Ok(goal) => Ok(ScriptEvent::Begin {
            run,
            client,
            locality,
            policy: named.name,
            place: named.place,
            goal,
        }),
        Err(fault) => {
            drop(named);
            Err(fault)
        }
    }
}

#[tactic(auto, unfolding(crate::specs::Scripts::turn_in))]
fn read_turn(
    alloc: Global,
    runs: &[u16],
    item: &Value,
    place: &PlaceRef<'_>,
) -> Result<ScriptEvent, PartFault>
    ensures { Gives result (turn_in runs.now (view item.now) place.now) }
{
    let run = needed_begun_run(alloc, runs, item, place)?;
    let times = optional_times(alloc, item, place)?;
    Ok(ScriptEvent::Turn { run, times })
}

fn read_time(alloc: Global, item: &Value, place: &PlaceRef<'_>) -> Result<ScriptEvent, PartFault>
    ensures { Gives result (time_event_in (view item.now) place.now) }
{
    Ok(ScriptEvent::Time(needed_u32(alloc, item, "ms", place)?))
}

fn read_presence(
    alloc: Global,
    item: &Value,
    place: &PlaceRef<'_>,
) -> Result<ScriptEvent, PartFault>
    ensures { Gives result (presence_event_in (view item.now) place.now) }
{
    let (on, place) = needed(alloc, item, "on", place)?;
    Ok(ScriptEvent::Presence(truth(alloc, on, &place)?))
}

// The locality, 0 to 4, without it 0.
fn optional_locality(alloc: Global, item: &Value, place: &PlaceRef<'_>) -> Result<u8, PartFault>
    ensures { Gives result (locality_in (view item.now) place.now) }
{
    match member(item, "locality") {
        Some(locality) => Ok(unsigned(alloc, locality, 0, 4, &place.member("locality"))? as u8),
        None => Ok(0),
    }
}

// The bytes of a command, of any number.
fn needed_buffer(alloc: Global, item: &Value, place: &PlaceRef<'_>) -> Result<Blob, PartFault>
    ensures { Gives result (needed buffer_in (codes "bytes") (view item.now) place.now) }
{
    let (bytes, place) = needed(alloc, item, "bytes", place)?;
    any_bytes(alloc, bytes, &place).map_err(PartFault::from)
}

// The name of the policy, and where it stands.
fn needed_policy(
    alloc: Global,
    item: &Value,
    place: &PlaceRef<'_>,
) -> Result<NamedPolicy, PartFault>
    ensures { Gives result (needed policy_name_in (codes "policy") (view item.now) place.now) }
{
    let (policy, place) = needed(alloc, item, "policy", place)?;
    policy_name(alloc, policy, &place)
}

// The number of a run that was not begun before.
fn needed_new_run(
    alloc: Global,
    runs: &[u16],
    item: &Value,
    place: &PlaceRef<'_>,
) -> Result<u16, PartFault>
    ensures { Gives result (needed (new_run_in runs.now) (codes "run") (view item.now) place.now) }
{
    let (run, place) = needed(alloc, item, "run", place)?;
    let run = run_of(alloc, run, &place)?;
    if is_begun(runs, run) {
        refuse(alloc, SceneKind::Twice, &place)
    } else {
        Ok(run)
    }
}

// The number of a run that was begun before.
fn needed_begun_run(
    alloc: Global,
    runs: &[u16],
    item: &Value,
    place: &PlaceRef<'_>,
) -> Result<u16, PartFault>
    ensures { Gives result
        (needed (begun_run_in runs.now) (codes "run") (view item.now) place.now) }
{
    let (run, place) = needed(alloc, item, "run", place)?;
    let run = run_of(alloc, run, &place)?;
    if is_begun(runs, run) {
        Ok(run)
    } else {
        refuse(alloc, SceneKind::NoSuchRun, &place)
    }
}

// The number of a run.
fn run_of(alloc: Global, value: &Value, place: &PlaceRef<'_>) -> Result<u16, PartFault>
    ensures { Gives result (run_in (view value.now) place.now) }
{
    Ok(unsigned(alloc, value, 1, MAX_RUN, place)? as u16)
}

fn is_begun(runs: &[u16], run: u16) -> bool
    ensures { result ≡ is_begun runs.now run }
{
    // No early end, so that several numbers are compared at a time.
    let mut found = false;
    for begun in runs {
        found |= *begun == run;
    }
    found
}

// How many commands, without it all to the end of the run.
fn optional_times(
    alloc: Global,
    item: &Value,
    place: &PlaceRef<'_>,
) -> Result<Option<u16>, PartFault>
    ensures { Gives result (optional some_times_in None (codes "times") (view item.now) place.now) }
{
    match member(item, "times") {
        Some(times) => {
            let times = unsigned(alloc, times, 1, MAX_TIMES, &place.member("times"))?;
            Ok(Some(times as u16))
        }
        None => Ok(None),
    }
}
