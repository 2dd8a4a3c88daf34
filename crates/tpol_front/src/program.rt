//! A run of a program.

ghost use Rattle.std.specs.Prelude.{◌≡◌, ◌≤◌, ◌⊎◌, [], Some, false, IsTrue, IfSome, map, take, drop};
ghost use Rattle.std.specs.String.{string_bytes};
ghost use Rattle.tpol_base.specs.Causes.{Rose, Grows, GrowsInPart};
ghost use Rattle.tpol_front.specs.Outside.{LosesAtMost};
ghost use Rattle.tpol_front.specs.Reached.{IsReadableOf};
ghost use Rattle.tpol_front.specs.Report.{OfHeld, OfReport, most_read, reads_source, report_of, seen_by, uses_shelf};
ghost use Rattle.tpol_front.specs.Status.{IsWhole, IsWholeUnlessNoMemory, IsSilent, IsPastReading, status_of};
ghost use Rattle.tpol_front.specs.Told.{IfCommand};
ghost use Rattle.tpol_steps.specs.Answer.{text_of};

use crate::answers::answer_of_words;
use crate::print::print_answer;
use crate::{Command, Status};
use std::alloc::Global;
use tpol_base::{Shelf, Sink, Source};
use tpol_steps::Halt;

/// Does all that a program does whose commands are `C`: takes the words behind its name, reads the document from
/// `source` where the command wants one, prints the report to `out`, one write a line, or two where a command's line
/// is very long, and answers the status. Documents that a command names are on the shelf.
///
/// `left`, `contents` and `documents` are what source, sink and shelf tell that they hold. Each count of faults is
/// that object's own, and rises at each of its faults, unless it stands at its last value, 2^64 - 1.
pub fn run_program<C: Command, S: Source, K: Sink, H: Shelf>(
    alloc: Global,
    words: &Vec<String>,
    source: &mut S,
    out: &mut K,
    shelf: &mut H,
) -> Status
    // The report of the words, of the source's bytes up to byte 16,777,217, and of the shelf's documents, in whole or,
    // where the sink failed, a first part of it.
    ensures report { IsWhole result
        → OfReport C.commands (map string_bytes words.now.items) (S.left source.old)
        (H.documents shelf.old) (λ report.
        (result ≡ status_of report.answer.verdict)
        × Grows (K.contents out.old) (K.contents out.new) (text_of report.answer.lines)
        × (H.documents shelf.new ≡ Some report.documents)) }
    ensures prefix { result ≡ Status.WriteFault
        → OfReport C.commands (map string_bytes words.now.items) (S.left source.old)
        (H.documents shelf.old) (λ report.
        GrowsInPart (K.contents out.old) (K.contents out.new) (text_of report.answer.lines)
        × (H.documents shelf.new ≡ Some report.documents)) }

    // A report without a line calls no sink.
    ensures uncalled { OfReport C.commands (map string_bytes words.now.items) (S.left source.old)
        (H.documents shelf.old)
        (λ report. report.answer.lines ≡ [] → out.new ≡ out.old) }

    // Where the source or the shelf failed or memory ran out, the sink was not called, and the shelf's documents are as
    // before.
    ensures silent { IsSilent result → out.new ≡ out.old }
    ensures unchanged { IsSilent result → H.documents shelf.new ≡ H.documents shelf.old }

    // What is read of the source, and how far the run came before the shelf was asked.
    ensures read_whole { IsTrue (reads_source C.commands (map string_bytes words.now.items))
        → IsPastReading result
        → IfSome (S.left source.old) (λ held. S.left source.new ≡ Some (drop most_read held)) }
    ensures read_at_most { LosesAtMost most_read (S.left source.old) (S.left source.new) }
    ensures unread { reads_source C.commands (map string_bytes words.now.items) ≡ false
        → source.new ≡ source.old }
    ensures untouched { uses_shelf C.commands (map string_bytes words.now.items) ≡ false
        → shelf.new ≡ shelf.old }
    ensures asked { IfSome (S.left source.old) (λ held. (shelf.new ≡ shelf.old)
        ⊎ IsReadableOf C.commands C.IsDocument
        (C.commands.command_of (map string_bytes words.now.items)) (take most_read held)) }

    // Each fault comes only where its object's count of faults rose in this call, or stands at its last value, and
    // those of the source and of the shelf only of commands that use the object.
    ensures read_fault { result ≡ Status.ReadFault
        → Rose (S.faults source.old) (S.faults source.new) }
    ensures write_fault { result ≡ Status.WriteFault → Rose (K.faults out.old) (K.faults out.new) }
    ensures shelf_fault { result ≡ Status.ShelfFault
        → Rose (H.faults shelf.old) (H.faults shelf.new) }
    ensures read_fault_of { result ≡ Status.ReadFault
        → IsTrue (reads_source C.commands (map string_bytes words.now.items)) }
    ensures shelf_fault_of { result ≡ Status.ShelfFault
        → IsTrue (uses_shelf C.commands (map string_bytes words.now.items)) }

    // Each fault is told, no count falls, and nothing else ends a run.
    ensures read_told { (result ≡ Status.ReadFault) ⊎ (S.faults source.new ≡ S.faults source.old) }
    ensures write_told { (result ≡ Status.WriteFault) ⊎ (K.faults out.new ≡ K.faults out.old) }
    ensures shelf_told { (result ≡ Status.ShelfFault) ⊎ (H.faults shelf.new ≡ H.faults shelf.old) }
    ensures complete { ¬ Rose (S.faults source.old) (S.faults source.new)
        → ¬ Rose (K.faults out.old) (K.faults out.new)
        → ¬ Rose (H.faults shelf.old) (H.faults shelf.new)
        → IsWholeUnlessNoMemory result }
    ensures source_count { S.faults source.old ≤ S.faults source.new }
    ensures sink_count { K.faults out.old ≤ K.faults out.new }
    ensures shelf_count { H.faults shelf.old ≤ H.faults shelf.new }

    // What the program's commands tell besides.
    ensures told { result ≡ Status.Done
        → IfCommand (C.commands.command_of (map string_bytes words.now.items)) (λ command.
        OfHeld (S.left source.old) (H.documents shelf.old) (λ input all.
        C.IsTrueOf command (seen_by C.commands command input) all
        (report_of C.commands (map string_bytes words.now.items) input all).answer)) }
{
    match answer_of_words::<C, S, H>(alloc, words, source, shelf) {
        Ok(answer) => print_answer(out, &answer),
        Err(Halt::Refused(answer)) => print_answer(out, &answer),
        Err(Halt::ReadFailed) => Status::ReadFault,
        Err(Halt::ShelfFailed) => Status::ShelfFault,
        Err(Halt::NoMemory) => Status::NoMemory,
    }
}
