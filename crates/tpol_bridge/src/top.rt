ghost use Rattle.std.specs.Prelude.{◌≡◌, ◌≤◌, ◌⊎◌, [], Some, false, IsTrue, IfSome, map, take, drop};
ghost use Rattle.std.specs.String.{string_bytes};
ghost use Rattle.tpol_base.specs.Causes.{Rose, Grows, GrowsInPart};
ghost use Rattle.tpol_front.specs.Outside.{LosesAtMost};
ghost use Rattle.tpol_front.specs.Report.{OfHeld, most_read};
ghost use Rattle.tpol_steps.specs.Answer.{text_of};
ghost use Rattle.tpol_bridge.specs.Reached.{IsReadableOf};
ghost use Rattle.tpol_bridge.specs.Report.{OfReport, report_of};
ghost use Rattle.tpol_front.specs.Status.{IsWhole, IsWholeUnlessNoMemory, IsSilent, IsPastReading, status_of};
ghost use Rattle.tpol_bridge.specs.Who.{IfDone, IfWho};
ghost use Rattle.tpol_bridge.specs.Words.{reads_source, request_of, uses_shelf};
ghost use Rattle.tpol_who.specs.Begins.{IsToldWho};

use crate::request::Request;
use std::alloc::Global;
use tpol_base::{Shelf, Sink, Source};
use tpol_front::{Status, run_program};

/// Does all that the program for FAPI's exports does: takes the words behind the program's name, reads the export or
/// the scene from `source`, prints the report to `out`, one write a line, or two where a command's line is very long,
/// and answers the status. A scene that a command names is on the shelf, and so are the policies that the scene names
/// and those that are approved.
///
/// `left`, `contents` and `documents` are what source, sink and shelf tell that they hold. Each count of
/// faults is that object's own, and rises at each of its faults, unless it stands at its last value, 2^64 - 1.
pub fn bridge_main<S: Source, K: Sink, H: Shelf>(
    alloc: Global,
    words: &Vec<String>,
    source: &mut S,
    out: &mut K,
    shelf: &mut H,
) -> Status
    // What is printed, answered and left on the shelf is the report of the words, the source's bytes (up to
    // byte 16,777,217) and the shelf's documents.
    ensures report { IsWhole result
        → OfReport (map string_bytes words.now.items) (S.left source.old) (H.documents shelf.old)
        (λ report.
        (result ≡ status_of report.answer.verdict)
        × Grows (K.contents out.old) (K.contents out.new) (text_of report.answer.lines)
        × (H.documents shelf.new ≡ Some report.documents)) }

    // Where the sink failed, a first part of the report was written.
    ensures prefix { result ≡ Status.WriteFault
        → OfReport (map string_bytes words.now.items) (S.left source.old) (H.documents shelf.old)
        (λ report.
        GrowsInPart (K.contents out.old) (K.contents out.new) (text_of report.answer.lines)
        × (H.documents shelf.new ≡ Some report.documents)) }

    // A report without a line calls no sink.
    ensures uncalled { OfReport (map string_bytes words.now.items) (S.left source.old)
        (H.documents shelf.old)
        (λ report. report.answer.lines ≡ [] → out.new ≡ out.old) }

    // Where the source or the shelf failed or memory ran out, the sink was not called, and the shelf's documents are as
    // before.
    ensures silent { IsSilent result → out.new ≡ out.old }
    ensures unchanged { IsSilent result → H.documents shelf.new ≡ H.documents shelf.old }

    // A command that reads the source reads it to its end, or to its byte 16,777,217, unless the source failed or
    // memory ran out, and never further.
    ensures read_whole { IsTrue (reads_source (map string_bytes words.now.items))
        → IsPastReading result
        → IfSome (S.left source.old) (λ held. S.left source.new ≡ Some (drop most_read held)) }
    ensures read_at_most { LosesAtMost most_read (S.left source.old) (S.left source.new) }

    // Words that are no command leave the source alone; a command that names no scene and does not ask which
    // policies are approved leaves the shelf alone. The shelf is asked only once what was read is an export that
    // says a policy, or of `who` a scene.
    ensures unread { reads_source (map string_bytes words.now.items) ≡ false
        → source.new ≡ source.old }
    ensures untouched { uses_shelf (map string_bytes words.now.items) ≡ false
        → shelf.new ≡ shelf.old }
    ensures asked { IfSome (S.left source.old) (λ held.
        (shelf.new ≡ shelf.old) ⊎ IsReadableOf (map string_bytes words.now.items)
        (take most_read held)) }

    // Each fault comes only where its object's count of faults rose in this call, or stands at its last value, and
    // those of the source and of the shelf only of commands that use the object.
    ensures read_fault { result ≡ Status.ReadFault
        → Rose (S.faults source.old) (S.faults source.new) }
    ensures write_fault { result ≡ Status.WriteFault → Rose (K.faults out.old) (K.faults out.new) }
    ensures shelf_fault { result ≡ Status.ShelfFault
        → Rose (H.faults shelf.old) (H.faults shelf.new) }
    ensures read_fault_of { result ≡ Status.ReadFault
        → IsTrue (reads_source (map string_bytes words.now.items)) }
    ensures shelf_fault_of { result ≡ Status.ShelfFault
        → IsTrue (uses_shelf (map string_bytes words.now.items)) }

    // Each fault is told: a count rises in no call that answers otherwise.
    ensures read_told { (result ≡ Status.ReadFault) ⊎ (S.faults source.new ≡ S.faults source.old) }
    ensures write_told { (result ≡ Status.WriteFault) ⊎ (K.faults out.new ≡ K.faults out.old) }
    ensures shelf_told { (result ≡ Status.ShelfFault) ⊎ (H.faults shelf.new ≡ H.faults shelf.old) }

    // Where no object's count of faults rose in this call, and none stands at its last value, the run came to its end,
    // and the whole report was written; or memory ran out.
    ensures complete { ¬ Rose (S.faults source.old) (S.faults source.new)
        → ¬ Rose (K.faults out.old) (K.faults out.new)
        → ¬ Rose (H.faults shelf.old) (H.faults shelf.new)
        → IsWholeUnlessNoMemory result }

    // No count falls.
    ensures source_count { S.faults source.old ≤ S.faults source.new }
    ensures sink_count { K.faults out.old ≤ K.faults out.new }
    ensures shelf_count { H.faults shelf.old ≤ H.faults shelf.new }

    // The report of `who` on a scene tells of each run that its script begins one line, and behind that a line for each
    // path of the policy in order: `can` exactly where nothing stands in the client's way, with what the machine shows
    // right before the begin, and else what does. The first `can` is the path that `run` begins on, and there is none
    // exactly where it begins on none.
    ensures who_told { IfWho (request_of (map string_bytes words.now.items))
        (OfHeld (S.left source.old) (H.documents shelf.old) (λ input all.
        IfDone (report_of (map string_bytes words.now.items) input all).answer
        (IsToldWho input all))) }
{
    run_program::<Request, S, K, H>(alloc, words, source, out, shelf)
}
