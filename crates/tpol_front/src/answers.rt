//! The answer of the words of a program.

ghost use Rattle.std.specs.Prelude.{◌≡◌, Some, IfSome, IsErrOf, OnErr, map, take};
ghost use Rattle.std.specs.String.{string_bytes};
ghost use Rattle.tpol_front.specs.Input.{size_step};
ghost use Rattle.tpol_front.specs.Outside.{AsksSource, UsesShelf};
ghost use Rattle.tpol_front.specs.Reached.{IsReadableOf};
ghost use Rattle.tpol_front.specs.Report.{OfHeld, OfReport, most_read, reads_source, seen_by, uses_shelf};
ghost use Rattle.tpol_front.specs.Told.{IfCommand, OfDone};
ghost use Rattle.tpol_steps.specs.Steps.{Answers, IfAnswered};

use crate::Command;
use crate::input::read_input;
use std::alloc::Global;
use tpol_base::{Blob, Lapse, Shelf, Source};
use tpol_steps::{Answer, Halt, Verdict};

/// The answer of the words: of no command, or of the command that they are.
///
/// `Refused` tells that they are no command, that the source has more than 16,777,216 bytes, or the command's
/// first refusal. `ReadFailed` comes only where the command reads the source and that failed, `ShelfFailed` only
/// where it uses the shelf and that failed, and `NoMemory` where memory ran out. After each of them the shelf's
/// documents are as before.
pub fn answer_of_words<C: Command, S: Source, H: Shelf>(
    alloc: Global,
    words: &Vec<String>,
    source: &mut S,
    shelf: &mut H,
) -> Result<Answer, Halt>
    ensures report { IfAnswered result (λ answer.
        OfReport C.commands (map string_bytes words.now.items) (S.left source.old)
        (H.documents shelf.old) (λ report.
        (answer ≡ report.answer) × (H.documents shelf.new ≡ Some report.documents))) }
    ensures told { OfDone result (λ answer.
        IfCommand (C.commands.command_of (map string_bytes words.now.items)) (λ command.
        OfHeld (S.left source.old) (H.documents shelf.old) (λ input all.
        C.IsTrueOf command (seen_by C.commands command input) all answer))) }
    ensures keeps { OnErr result (H.documents shelf.new ≡ H.documents shelf.old) }
    ensures reads { AsksSource
        (reads_source C.commands (map string_bytes words.now.items)) source.old source.new
        (S.left source.old) (S.left source.new) (S.faults source.old) (S.faults source.new) result }
    ensures asks { UsesShelf (uses_shelf C.commands (map string_bytes words.now.items))
        (S.left source.old) (λ held. IsReadableOf C.commands C.IsDocument
        (C.commands.command_of (map string_bytes words.now.items)) (take most_read held))
        shelf.old shelf.new (H.faults shelf.old) (H.faults shelf.new) result }
{
    let Some(command) = C::from_words(alloc, words)? else {
        let usage = Answer::of_line(alloc, "error Usage", Verdict::Usage)?;
        return Err(Halt::Refused(usage));
    };
    let input = input_of(alloc, &command, source)?;
    command.carry_out(alloc, input.as_slice(), shelf)
}

// What a command is given of the source: nothing where it does not read it. `Refused` tells that it is too large.
fn input_of<C: Command, S: Source>(alloc: Global, command: &C, source: &mut S) -> Result<Blob, Halt>
    ensures input { IfSome (S.left source.old) (λ held. Answers (λ input. input)
        (size_step (seen_by C.commands command.now (take most_read held))) result) }
    ensures reads { AsksSource (C.commands.reads command.now) source.old source.new
        (S.left source.old) (S.left source.new) (S.faults source.old) (S.faults source.new) result }
    ensures unasked { IsErrOf result Halt.ShelfFailed → ⊥ }
{
    if !command.reads_source() {
        return Ok(Blob::new(alloc));
    }
    match read_input(alloc, source, most_read()) {
        Ok(input) if input.len() < most_read() => Ok(input),
        Ok(_) => {
            let too_large = Answer::of_line(alloc, "error TooLarge", Verdict::TooLarge)?;
            Err(Halt::Refused(too_large))
        }
        Err(Lapse::Failed) => Err(Halt::ReadFailed),
        Err(Lapse::NoMemory) => Err(Halt::NoMemory),
    }
}

// The number of bytes that are read at most: one more than a document may have.
fn most_read() -> usize
    ensures { result ≡ most_read }
{
    16_777_217
}
