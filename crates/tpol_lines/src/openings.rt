// The line of an opening.

ghost use Rattle.std.specs.Prelude.{◌≡◌, ◌++◌, IfOk, List, OnOk};
ghost use Rattle.tpol_digest.specs.Limits.{AreWithinLimits};
ghost use Rattle.tpol_digest.specs.Paths.{paths_of};
ghost use Rattle.tpol_lines.specs.OpeningLine.{branch_line, clash_line, events_text, opening_line, zero_line, IsListed};
ghost use Rattle.tpol_lines.specs.PathLine.{label};
ghost use Rattle.tpol_tree.specs.declared.path.PathStep.{PathStep};

use crate::decimal::push_decimal;
use crate::hexadecimal::push_hexadecimal;
use crate::one_label::label_at;
use std::alloc::Global;
use tpol_base::{Blob, NoMemory};
use tpol_trace::Opening;
use tpol_tree::{Approvals, Closed};

// Room for all of an opening's line, and its line end, but its choices and events.
const ROOM_BESIDE_CHOICES: usize = 64;

// Room for the number of an event.
const ROOM_FOR_EVENT: usize = 8;

/// The line of the opening behind an event: by which path, with its choices, a session's facts led to the
/// policy's digest, and the events of the facts; or the two strings of one digest, or the string whose digest
/// is zero, in hexadecimal. It fails only where memory ran out.
pub fn opening_line(
    alloc: Global,
    event: u32,
    policy: &Closed,
    approvals: &Approvals,
    opening: &Opening,
) -> Result<Blob, NoMemory>
    requires within { AreWithinLimits (paths_of policy.now approvals.now) }
    requires listed { IsListed (paths_of policy.now approvals.now) opening.now }
    ensures { IfOk result (λ line. line
        ≡ opening_line event (paths_of policy.now approvals.now) opening.now) }
{
    match opening {
        Opening::Branch {
            path: position,
            events,
        } => {
            let choices = label_at(alloc, policy, approvals, *position)?;
            branch_line(alloc, event, *position, choices.as_str(), events.as_slice())
        }
        Opening::Clash { first, second } => {
            clash_line(alloc, event, first.as_slice(), second.as_slice())
        }
        Opening::ZeroInput { input } => zero_line(alloc, event, input.as_slice()),
    }
}

// The line of an opening by a path: its position, its choices, and the events of the facts.
fn branch_line(
    alloc: Global,
    event: u32,
    position: u32,
    choices: &str,
    events: &[u32],
) -> Result<Blob, NoMemory>
    ensures { (steps : List PathStep) → choices.now ≡ label steps
        → IfOk result (λ line. line ≡ branch_line event position steps events.now) }
{
    let room = events
        .len()
        .saturating_mul(ROOM_FOR_EVENT)
        .saturating_add(choices.len())
        .saturating_add(ROOM_BESIDE_CHOICES);
    let mut line = Vec::with_capacity(alloc, room)?;
    line.extend_from_slice(b"opening ")?;
    push_decimal(&mut line, u64::from(event))?;
    line.extend_from_slice(b" path ")?;
    push_decimal(&mut line, u64::from(position))?;
    line.push(b' ')?;
    line.extend_from_slice(choices.as_bytes())?;
    line.extend_from_slice(b" events ")?;
    push_events(&mut line, events)?;
    Ok(Blob::from_vec(line))
}

// Adds the numbers of events, with `,` between.
fn push_events(line: &mut Vec<u8>, events: &[u32]) -> Result<(), NoMemory>
    ensures { OnOk result (line.new.items ≡ line.old.items ++ events_text events.now) }
{
    let Some((first, rest)) = events.split_first() else {
        return Ok(());
    };
    push_decimal(line, u64::from(*first))?;
    for event in rest {
        line.push(b',')?;
        push_decimal(line, u64::from(*event))?;
    }
    Ok(())
}

// The line of two strings of one digest.
fn clash_line(alloc: Global, event: u32, first: &[u8], second: &[u8]) -> Result<Blob, NoMemory>
    ensures { IfOk result (λ line. line ≡ clash_line event first.now second.now) }
{
    let mut line = Vec::new(alloc);
    line.extend_from_slice(b"clash ")?;
    push_decimal(&mut line, u64::from(event))?;
    line.push(b' ')?;
    push_hexadecimal(&mut line, first)?;
    line.push(b' ')?;
    push_hexadecimal(&mut line, second)?;
    Ok(Blob::from_vec(line))
}

// The line of a string whose digest is zero.
fn zero_line(alloc: Global, event: u32, input: &[u8]) -> Result<Blob, NoMemory>
    ensures { IfOk result (λ line. line ≡ zero_line event input.now) }
{
    let mut line = Vec::new(alloc);
    line.extend_from_slice(b"zero ")?;
    push_decimal(&mut line, u64::from(event))?;
    line.push(b' ')?;
    push_hexadecimal(&mut line, input)?;
    Ok(Blob::from_vec(line))
}
