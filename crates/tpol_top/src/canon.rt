// The command `canon`.

ghost use Rattle.std.specs.Prelude.{◌≡◌, [], IfOk};
ghost use Rattle.tpol_steps.specs.Answer.{one_line};
ghost use Rattle.tpol_steps.specs.Steps.{Answers, IsInside};
ghost use Rattle.tpol_top.specs.Canon.{canon_step};
ghost use Rattle.tpol_tree.specs.Erased.{erased_policy};
ghost use Rattle.tpol_write.specs.Canonical.{canonical_text};

use std::alloc::Global;
use tpol_base::NoMemory;
use tpol_lines::Lines;
use tpol_steps::{Answer, Halt, Verdict, read_document};
use tpol_tree::Policy;
use tpol_write::write_policy_in;

/// The command `canon`: the canonical text of the document in the source.
///
/// `Refused` tells the document's first fault; `NoMemory` comes where memory ran out, and nothing else comes.
#[tactic(auto, unfolding(crate::specs::Canon::canon_step))]
pub fn canon(alloc: Global, input: &[u8]) -> Result<Answer, Halt>
    ensures answer { Answers (λ answer. answer) (canon_step input.now) result }
    ensures inside { IsInside result }
{
    // The text is seldom longer than the document. Its room is taken before the document is read: behind the many
    // small pieces that reading gives back, the allocator would first join these.
    let room = room_of(alloc, input.len())?;
    let (policy, _notes) = read_document(alloc, input)?;
    Ok(canonical(alloc, room, &policy)?)
}

fn room_of(alloc: Global, count: usize) -> Result<Vec<u8>, NoMemory>
    ensures { IfOk result (λ room. room.items ≡ []) }
{
    Ok(Vec::with_capacity(alloc, count)?)
}

#[tactic(auto, using(tpol_write::proofs::CanonErased::canonical_text_erased))]
fn canonical(alloc: Global, room: Vec<u8>, policy: &Policy) -> Result<Answer, NoMemory>
    ensures { IfOk result (λ answer. answer
        ≡ one_line (canonical_text (erased_policy policy.now)) Verdict.Done) }
{
    let lines = Lines::of_line(alloc, write_policy_in(room, alloc, policy)?)?;
    let verdict = Verdict::Done;
    Ok(Answer { lines, verdict })
}
