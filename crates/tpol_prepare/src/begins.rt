//! How many runs a script begins.

ghost use Rattle.std.specs.Prelude.{◌≡◌, ◌≤◌, IfOk, length};
ghost use Rattle.tpol_prepare.specs.Begins.{begins_step, event_place, is_begin, ninth_begin};
ghost use Rattle.tpol_steps.specs.Steps.{Answers, IsInside};

use crate::manner::Way;
use std::alloc::Global;
use tpol_base::NoMemory;
use tpol_json::Place;
use tpol_scene::ScriptEvent;
use tpol_steps::{Halt, bad_scene};

/// The most blind runs that a script begins.
const MOST_BLIND_RUNS: usize = 8;

/// Ends the command where a script begins more runs than may be driven so: more than eight that are blind.
///
/// `Refused` tells where the event stands that begins the ninth one; `NoMemory` comes where memory for that line ran
/// out, and nothing else comes.
pub fn check_begins(alloc: Global, way: Way, script: &[ScriptEvent]) -> Result<(), Halt>
    requires few { length script.now ≤ 4096 }
    ensures answer { Answers (λ _. tt) (begins_step way script.now) result }
    ensures inside { IsInside result }
{
    match way {
        Way::Sighted | Way::WithTickets => Ok(()),
        Way::Blind => check_few(alloc, script),
    }
}

fn check_few(alloc: Global, script: &[ScriptEvent]) -> Result<(), Halt>
    requires few { length script.now ≤ 4096 }
    ensures answer { Answers (λ _. tt) (begins_step Way.Blind script.now) result }
    ensures inside { IsInside result }
{
    match ninth_begin(script) {
        None => Ok(()),
        Some(index) => {
            let place = event_place(alloc, index)?;
            Err(Halt::Refused(bad_scene(alloc, "TooMany", &place)?))
        }
    }
}

// The index of the ninth event that begins a run, counted from 0.
fn ninth_begin(script: &[ScriptEvent]) -> Option<u32>
    requires few { length script.now ≤ 4096 }
    ensures { result ≡ ninth_begin script.now }
{
    let mut begun = 0;
    for index in 0..script.len() {
        if is_begin(&script[index]) {
            if begun == MOST_BLIND_RUNS {
                return Some(index as u32);
            }
            begun += 1;
        }
    }
    None
}

fn is_begin(event: &ScriptEvent) -> bool
    ensures { result ≡ is_begin event.now }
{
    match event {
        ScriptEvent::Begin { .. } => true,
        _ => false,
    }
}

// Where the event of an index stands in the scene.
fn event_place(alloc: Global, index: u32) -> Result<Place, NoMemory>
    ensures { IfOk result (λ place. place ≡ event_place index) }
{
    let mut place = Place::root(alloc);
    place.push_member(alloc, "script")?;
    place.push_item(index)?;
    Ok(place)
}
