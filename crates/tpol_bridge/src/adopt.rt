// The command `adopt`.

ghost use Rattle.std.specs.Prelude.{◌≡◌, IfOk};
ghost use Rattle.tpol_bridge.specs.Adopt.{adopt_step};
ghost use Rattle.tpol_steps.specs.Answer.{one_line};
ghost use Rattle.tpol_steps.specs.Steps.{Answers, IsInside};
ghost use Rattle.tpol_tree.specs.Erased.{erased_policy};
ghost use Rattle.tpol_write.specs.Canonical.{canonical_text};

use crate::export::read_export;
use std::alloc::Global;
use tpol_base::NoMemory;
use tpol_lines::Lines;
use tpol_steps::{Answer, Halt, Verdict};
use tpol_tree::Policy;
use tpol_write::write_policy;

/// The command `adopt`: the canonical text of the policy that the export in the source says.
///
/// `Refused` tells the export's first fault; `NoMemory` comes where memory ran out, and nothing else comes.
#[tactic(auto, unfolding(crate::specs::Adopt::adopt_step))]
pub fn adopt(alloc: Global, input: &[u8]) -> Result<Answer, Halt>
    ensures answer { Answers (λ answer. answer) (adopt_step input.now) result }
    ensures inside { IsInside result }
{
    let export = read_export(alloc, input)?;
    Ok(canonical(alloc, &export.policy)?)
}

#[tactic(auto, using(tpol_write::proofs::CanonErased::canonical_text_erased))]
fn canonical(alloc: Global, policy: &Policy) -> Result<Answer, NoMemory>
    ensures { IfOk result (λ answer. answer
        ≡ one_line (canonical_text (erased_policy policy.now)) Verdict.Done) }
{
    let lines = Lines::of_line(alloc, write_policy(alloc, policy)?)?;
    let verdict = Verdict::Done;
    Ok(Answer { lines, verdict })
}
