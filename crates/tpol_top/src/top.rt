ghost use Rattle.std.specs.Prelude.{◌≡◌, ◌≤◌, ◌⊎◌, [], Some, false, IsTrue, IfSome, map, take, drop};
ghost use Rattle.std.specs.String.{string_bytes};
ghost use Rattle.tpol_base.specs.Causes.{Rose, Grows, GrowsInPart};
ghost use Rattle.tpol_front.specs.Outside.{LosesAtMost};
ghost use Rattle.tpol_front.specs.Report.{OfHeld, most_read};
ghost use Rattle.tpol_laws.specs.Printed.{IsToldScene};
ghost use Rattle.tpol_perform.specs.Explained.{IsExplainedScene};
ghost use Rattle.tpol_steps.specs.Answer.{text_of};
ghost use Rattle.tpol_top.specs.Explain.{IfDone, IfExplain, IfPerform};
ghost use Rattle.tpol_top.specs.Reached.{IsReadableOf};
ghost use Rattle.tpol_top.specs.Report.{OfReport, report_of};
ghost use Rattle.tpol_front.specs.Status.{IsWhole, IsWholeUnlessNoMemory, IsSilent, IsPastReading, status_of};
ghost use Rattle.tpol_top.specs.Words.{reads_source, request_of, uses_shelf};

use crate::request::Request;
use std::alloc::Global;
use tpol_base::{Shelf, Sink, Source};
use tpol_front::{Status, run_program};

/// Does all that the program does: takes the words behind the program's name, reads the document from
/// `source` where the command wants one, prints the report to `out`, one write a line, or two where a command's line
/// is very long, and answers the status. Documents that a command names are on the shelf.
///
/// `left`, `contents` and `documents` are what source, sink and shelf tell that they hold. Each count of
/// faults is that object's own, and rises at each of its faults, unless it stands at its last value, 2^64 - 1.
pub fn policy_main<S: Source, K: Sink, H: Shelf>(
    alloc: Global,
    words: &Vec<String>,
    source: &mut S,
    out: &mut K,
    shelf: &mut H,
) -> Status
    // What is printed, answered and left on the shelf is the report of the words, the source's bytes (up to
    // byte 16,777,217) and the shelf's documents.
    ensures report { IsWhole result
        → OfReport (map string_bytes words.now.items) (S.left source.old) (H.documents shelf.old)
        (λ report.
        (result ≡ status_of report.answer.verdict)
        × Grows (K.contents out.old) (K.contents out.new) (text_of report.answer.lines)
        × (H.documents shelf.new ≡ Some report.documents)) }

    // Where the sink failed, a first part of the report was written.
    ensures prefix { result ≡ Status.WriteFault
        → OfReport (map string_bytes words.now.items) (S.left source.old) (H.documents shelf.old)
        (λ report.
        GrowsInPart (K.contents out.old) (K.contents out.new) (text_of report.answer.lines)
        × (H.documents shelf.new ≡ Some report.documents)) }

    // A report without a line calls no sink.
    ensures uncalled { OfReport (map string_bytes words.now.items) (S.left source.old)
        (H.documents shelf.old)
        (λ report. report.answer.lines ≡ [] → out.new ≡ out.old) }

    // Where the source or the shelf failed or memory ran out, the sink was not called, and the shelf's documents are as
    // before.
    ensures silent { IsSilent result → out.new ≡ out.old }
    ensures unchanged { IsSilent result → H.documents shelf.new ≡ H.documents shelf.old }

    // A command that reads the source reads it to its end, or to its byte 16,777,217, unless the source failed or
    // memory ran out, and never further.
    ensures read_whole { IsTrue (reads_source (map string_bytes words.now.items))
        → IsPastReading result
        → IfSome (S.left source.old) (λ held. S.left source.new ≡ Some (drop most_read held)) }
    ensures read_at_most { LosesAtMost most_read (S.left source.old) (S.left source.new) }

    // Words that are no command leave the source alone, and so does a command that reads nothing; a command that
    // uses no document of the shelf leaves the shelf alone. The shelf is asked only once what was read is the
    // document that the command wants: a scene, which begins no ninth blind run, or a policy. `check` looks at its
    // certificate behind the shelf.
    ensures unread { reads_source (map string_bytes words.now.items) ≡ false
        → source.new ≡ source.old }
    ensures untouched { uses_shelf (map string_bytes words.now.items) ≡ false
        → shelf.new ≡ shelf.old }
    ensures asked { IfSome (S.left source.old) (λ held.
        (shelf.new ≡ shelf.old) ⊎ IsReadableOf (map string_bytes words.now.items)
        (take most_read held)) }

    // Each fault comes only where its object's count of faults rose in this call, or stands at its last value, and
    // those of the source and of the shelf only of commands that use the object.
    ensures read_fault { result ≡ Status.ReadFault
        → Rose (S.faults source.old) (S.faults source.new) }
    ensures write_fault { result ≡ Status.WriteFault → Rose (K.faults out.old) (K.faults out.new) }
    ensures shelf_fault { result ≡ Status.ShelfFault
        → Rose (H.faults shelf.old) (H.faults shelf.new) }
    ensures read_fault_of { result ≡ Status.ReadFault
        → IsTrue (reads_source (map string_bytes words.now.items)) }
    ensures shelf_fault_of { result ≡ Status.ShelfFault
        → IsTrue (uses_shelf (map string_bytes words.now.items)) }

    // Each fault is told: a count rises in no call that answers otherwise.
    ensures read_told { (result ≡ Status.ReadFault) ⊎ (S.faults source.new ≡ S.faults source.old) }
    ensures write_told { (result ≡ Status.WriteFault) ⊎ (K.faults out.new ≡ K.faults out.old) }
    ensures shelf_told { (result ≡ Status.ShelfFault) ⊎ (H.faults shelf.new ≡ H.faults shelf.old) }

    // Where no object's count of faults rose in this call, and none stands at its last value, the run came to its end,
    // and the whole report was written; or memory ran out.
    ensures complete { ¬ Rose (S.faults source.old) (S.faults source.new)
        → ¬ Rose (K.faults out.old) (K.faults out.new)
        → ¬ Rose (H.faults shelf.old) (H.faults shelf.new)
        → IsWholeUnlessNoMemory result }

    // No count falls.
    ensures source_count { S.faults source.old ≤ S.faults source.new }
    ensures sink_count { K.faults out.old ≤ K.faults out.new }
    ensures shelf_count { H.faults shelf.old ≤ H.faults shelf.new }

    // A scene that `explain` came to the end of, with `--cert` or not, is explained by what was printed. Every
    // command of its journal that asks for a policy session was authorized by it exactly where the session's policy
    // commands in the journal give the entity's authPolicy and every deferred check holds, and was served exactly
    // where its own rules hold too, and its own policy session, if it has one, had room for one more fact. Behind the
    // line of each one that was served on an entity whose policy the scene names stands the line of the first written
    // path of that policy which those policy commands match, or of two different strings of one SHA-256 digest, or of
    // one of digest zero. Where it names a path, the PCRs have the values that each PolicyPCR of the path asks for, or
    // the two are different strings of one digest; and under `--cert` a line stands behind it with bytes that certify
    // the path.
    ensures explained { result ≡ Status.Done
        → IfExplain (request_of (map string_bytes words.now.items)) (λ manner.
        OfHeld (S.left source.old) (H.documents shelf.old) (λ input all.
        IsExplainedScene manner input all
        (report_of (map string_bytes words.now.items) input all).answer.lines)) }

    // The report of a scene that `run` or `explain` carries out tells it, also where the sink failed and a first part of
    // the report was written. Every command of its journal that asks for a policy session was authorized exactly where
    // the clause above says, and served exactly where it says. A run that is not blind begins on the first path that
    // nothing blocks, and where only its own turns follow, one for each command of the path, it is served exactly where
    // it begins on one, with what its goal gives; else it is printed what blocks each path. Where openings are told, the
    // report explains the scene, as the clause above says of what was printed.
    ensures scene_told { IfPerform (request_of (map string_bytes words.now.items)) (λ manner.
        OfHeld (S.left source.old) (H.documents shelf.old) (λ input all.
        IfDone (report_of (map string_bytes words.now.items) input all).answer
        (IsToldScene manner input all))) }
{
    run_program::<Request, S, K, H>(alloc, words, source, out, shelf)
}
