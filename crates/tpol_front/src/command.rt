use std::alloc::Global;
use tpol_base::{NoMemory, Shelf};
use tpol_steps::{Answer, Halt};

/// A command of a program: what its words ask for.
pub trait Command: Drop {
    ghost use Rattle.std.specs.Prelude.{◌≡◌, ℕ, List, Some, map, IfOk, IfSome, OnErr};
    ghost use Rattle.std.specs.String.{string_bytes};
    ghost use Rattle.tpol_base.specs.declared.document.Document.{Document};
    ghost use Rattle.tpol_front.specs.Commands.{Commands};
    ghost use Rattle.tpol_steps.specs.declared.answer.Answer.{Answer};
    ghost use Rattle.tpol_steps.specs.declared.answer.Verdict.TheVariants.{Done};
    ghost use Rattle.tpol_steps.specs.Steps.{Answers, AsksShelf, IfAnswered};

    /// What the program's commands are.
    ghost commands: { Commands Self };

    /// The bytes are the document that a command reads.
    ghost IsDocument: { Self → List ℕ → Type 0 };

    /// What is true besides of the answer of a command that came to its end, on what it read and on the shelf's
    /// documents.
    ghost IsTrueOf: { Self → List ℕ → List Document → Answer → Type 0 };

    /// The command that the words are, or `None` where they are none. It fails only where memory ran out.
    fn from_words(alloc: Global, words: &Vec<String>) -> Result<Option<Self>, NoMemory>
        ensures { IfOk result (λ command. command
            ≡ commands.command_of (map string_bytes words.now.items)) };

    /// Whether the command reads the source.
    fn reads_source(&self) -> bool
        ensures { result ≡ commands.reads self.now };

    /// What the command has to say of a document that is not too large.
    ///
    /// `Refused` tells the command's first refusal. `ShelfFailed` comes only where the command uses the shelf and that
    /// failed, and `NoMemory` where memory ran out; nothing else comes. After each of them the shelf's documents are
    /// as before. The shelf is asked only once what was read is the document that the command wants.
    fn carry_out<H: Shelf>(
        &self,
        alloc: Global,
        input: &[u8],
        shelf: &mut H,
    ) -> Result<Answer, Halt>
        ensures answer { IfSome (H.documents shelf.old) (λ all.
            Answers (λ answer. answer) (commands.step self.now input.now all) result) }
        ensures told { IfAnswered result (λ answer. answer.verdict ≡ Done
            → IfSome (H.documents shelf.old) (λ all. IsTrueOf self.now input.now all answer)) }
        ensures leaves { IfAnswered result (λ _. IfSome (H.documents shelf.old) (λ all.
            H.documents shelf.new ≡ Some (commands.documents_after self.now input.now all))) }
        ensures keeps { OnErr result (H.documents shelf.new ≡ H.documents shelf.old) }
        ensures asks { AsksShelf (commands.uses self.now)
            (IsDocument self.now input.now) shelf.old shelf.new
            (H.faults shelf.old) (H.faults shelf.new) result };
}
