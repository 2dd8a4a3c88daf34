ghost use Rattle.std.specs.Prelude.{◌≡◌, ◌++◌, ◌≤◌, ◌⊎◌, [], IfSome, MatchResult, OnOk};
ghost use Rattle.tpol_base.specs.Causes.{HasCause, Grows, GrowsInPart, Rose};
ghost use Rattle.tpol_steps.specs.Answer.{text_of};
ghost use Rattle.tpol_front.specs.Status.{status_of};

use crate::Status;
use tpol_base::{Failed, Sink};
use tpol_lines::Lines;
use tpol_steps::Answer;

/// Prints an answer: the status that it ends with, or that the sink failed.
pub fn print_answer<K: Sink>(out: &mut K, answer: &Answer) -> Status
    ensures ends { (result ≡ Status.WriteFault) ⊎ (result ≡ status_of answer.now.verdict) }
    ensures whole { result ≡ status_of answer.now.verdict
        → Grows (K.contents out.old) (K.contents out.new) (text_of answer.now.lines) }
    ensures prefix { result ≡ Status.WriteFault
        → GrowsInPart (K.contents out.old) (K.contents out.new) (text_of answer.now.lines) }
    ensures uncalled { answer.now.lines ≡ [] → out.new ≡ out.old }
    ensures write_fault { result ≡ Status.WriteFault → Rose (K.faults out.old) (K.faults out.new) }
    ensures write_told { (result ≡ Status.WriteFault) ⊎ (K.faults out.new ≡ K.faults out.old) }
    ensures sink_count { K.faults out.old ≤ K.faults out.new }
{
    match print_lines(out, &answer.lines) {
        Ok(()) => Status::of_verdict(answer.verdict),
        Err(Failed) => Status::WriteFault,
    }
}

// The longest line that is joined before it is written: that of a command with a reply of 4,096 bytes.
const ROOM: usize = 8320;

// Writes lines, each in one write, or in two where it has a tail and is longer than `ROOM`.
fn print_lines<K: Sink>(out: &mut K, lines: &Lines) -> Result<(), Failed>
    ensures written { MatchResult result
        (λ _. Grows (K.contents out.old) (K.contents out.new) (text_of lines.now))
        (λ _. GrowsInPart (K.contents out.old) (K.contents out.new) (text_of lines.now)) }
    ensures uncalled { lines.now ≡ [] → out.new ≡ out.old }
    ensures cause { HasCause (K.faults out.old) (K.faults out.new) result }
    ensures quiet { OnOk result (K.faults out.new ≡ K.faults out.old) }
{
    let mut room = [0; ROOM];
    for index in 0..lines.len() {
        let (head, tail) = lines.parts(index);
        match print_line(out, &mut room, head, tail) {
            Ok(()) => {}
            Err(failed) => return Err(failed),
        }
    }
    Ok(())
}

// Writes a line of two parts.
fn print_line<K: Sink>(out: &mut K, room: &mut [u8], head: &[u8], tail: &[u8]) -> Result<(), Failed>
    ensures written { MatchResult result
        (λ _. Grows (K.contents out.old) (K.contents out.new) (head.now ++ tail.now))
        (λ _. GrowsInPart (K.contents out.old) (K.contents out.new) (head.now ++ tail.now)) }
    ensures cause { HasCause (K.faults out.old) (K.faults out.new) result }
    ensures quiet { OnOk result (K.faults out.new ≡ K.faults out.old) }
{
    if tail.is_empty() {
        return out.write(head);
    }
    match joined(room, head, tail) {
        Some(line) => out.write(line),
        None => print_parts(out, head, tail),
    }
}

// The two parts behind one another, if there is room for them.
fn joined<'a>(room: &'a mut [u8], head: &[u8], tail: &[u8]) -> Option<&'a [u8]>
    ensures { IfSome result (λ line. line.now ≡ head.now ++ tail.now) }
{
    let start = head.len();
    let end = start.checked_add(tail.len())?;
    if room.len() < end {
        return None;
    }
    room[..start].copy_from_slice(head);
    room[start..end].copy_from_slice(tail);
    Some(&room[..end])
}

// Writes the two parts, one after the other.
fn print_parts<K: Sink>(out: &mut K, head: &[u8], tail: &[u8]) -> Result<(), Failed>
    ensures written { MatchResult result
        (λ _. Grows (K.contents out.old) (K.contents out.new) (head.now ++ tail.now))
        (λ _. GrowsInPart (K.contents out.old) (K.contents out.new) (head.now ++ tail.now)) }
    ensures cause { HasCause (K.faults out.old) (K.faults out.new) result }
    ensures quiet { OnOk result (K.faults out.new ≡ K.faults out.old) }
{
    match out.write(head) {
        Ok(()) => out.write(tail),
        Err(failed) => Err(failed),
    }
}
