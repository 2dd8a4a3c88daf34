//! The script of a scene.

ghost use Rattle.std.specs.Prelude.{◌≡◌, codes, OnOk};
ghost use Rattle.serde_json.specs.View.{view};
ghost use Rattle.tpol_json.specs.Reading.{Gives};
ghost use Rattle.tpol_json.specs.Members.{optional};
ghost use Rattle.tpol_scene.specs.Scripts.{no_events, script_in, with_event};

use crate::cast::Cast;
use crate::events::{event_by, needed_event_kind};
use serde_json::Value;
use std::alloc::Global;
use tpol_base::{Blob, NoMemory, Sequence, Text};
use tpol_entities::{ItemReader, PartFault, optional_list};
use tpol_goal::Goal;
use tpol_json::{Place, PlaceRef, check_limit, check_object};

/// The most events of a scene.
const EVENTS: usize = 4096;

/// What happens to a machine.
#[derive(Drop)]
pub enum ScriptEvent {
    /// A client, which need not be listed, sends these bytes as a command at this locality (0 to 4).
    Command {
        client: u32,
        locality: u8,
        buffer: Blob,
    },
    /// A client begins a run with this number (from 1) at this locality (0 to 4): for this goal, by the policy of
    /// this name, without `/policy/` in front. `place` is where the policy's name stands.
    Begin {
        run: u16,
        client: u32,
        locality: u8,
        policy: Text,
        place: Place,
        goal: Goal,
    },
    /// A run that was begun goes on for so many commands (1 to 2,000), or to its end.
    Turn {
        run: u16,
        times: Option<u16>,
    },
    /// So many milliseconds pass.
    Time(u32),
    /// Somebody comes to the machine (physical presence), or goes.
    Presence(bool),
    /// The machine is reset (TPM Reset).
    Reset,
}

/// The events of a scene in order.
pub type Script = Sequence<ScriptEvent>;

/// The events that were read so far, and the runs that they begin.
#[derive(Drop)]
pub struct ScriptFront {
    pub events: Script,
    pub runs: Sequence<u16>,
}

/// The member `script`: a list of events, without it none. They name entities and clients of this cast. `WrongKind`
/// for what is no list, and else the first fault of its items, of which one past the 4,096th is `TooMany`.
pub fn optional_script(
    alloc: Global,
    cast: &Cast,
    value: &Value,
    place: &PlaceRef<'_>,
) -> Result<ScriptFront, PartFault>
    ensures { Gives result
        (optional (script_in cast.now) no_events (codes "script") (view value.now) place.now) }
{
    let reader = EventReader { cast };
    optional_list(alloc, &reader, no_events(alloc), value, "script", place)
}

fn no_events(alloc: Global) -> ScriptFront
    ensures { result ≡ no_events }
{
    ScriptFront {
        events: Sequence::new(alloc),
        runs: Sequence::new(alloc),
    }
}

// Reads events, which name entities and clients of this cast.
#[derive(Clone, Copy)]
struct EventReader<'a> {
    cast: &'a Cast,
}

impl<'a> ItemReader<ScriptFront> for EventReader<'a> {
    ghost use Rattle.tpol_scene.specs.Scripts.{event_in};

    ghost reading = { λ reader. event_in reader.cast.now };

    #[tactic(auto, unfolding(crate::specs::Scripts::event_in))]
    fn read_item(
        &self,
        alloc: Global,
        front: &mut ScriptFront,
        index: usize,
        item: &Value,
        place: &PlaceRef<'_>,
    ) -> Result<(), PartFault> {
        check_limit(alloc, index, EVENTS, place)?;
        check_object(alloc, item, place)?;
        let kind = needed_event_kind(alloc, item, place)?;
        let event = event_by(alloc, kind, self.cast, front.runs.as_slice(), item, place)?;
        add_event(front, event).map_err(PartFault::from)
    }
}

fn add_event(front: &mut ScriptFront, event: ScriptEvent) -> Result<(), NoMemory>
    ensures { OnOk result (front.new ≡ with_event front.old event) }
{
    if let ScriptEvent::Begin { run, .. } = &event {
        front.runs.push(*run)?;
    }
    front.events.push(event)
}
