// The command `export`.

ghost use Rattle.std.specs.Prelude.{◌≡◌, IfOk, List};
ghost use Rattle.serde_json.specs.Data.{Data};
ghost use Rattle.tpol_bridge.specs.FapiText.{fapi_text_step};
ghost use Rattle.tpol_export.specs.Text.{export_text};
ghost use Rattle.tpol_json.specs.declared.place.Place.{Place};
ghost use Rattle.tpol_read.specs.Documents.{StandsForPolicy};
ghost use Rattle.tpol_steps.specs.Answer.{one_line};
ghost use Rattle.tpol_steps.specs.Steps.{Answers, IsInside};
ghost use Rattle.tpol_tree.specs.Erased.{erased_policy};

use crate::export::read_export;
use std::alloc::Global;
use tpol_base::NoMemory;
use tpol_export::export_policy;
use tpol_lines::Lines;
use tpol_steps::{Answer, Halt, Verdict};
use tpol_tree::Policy;

/// The command `export`: the text in FAPI's spelling of the policy that the export in the source says.
///
/// `Refused` tells the export's first fault; `NoMemory` comes where memory ran out, and nothing else comes.
#[tactic(auto, using(crate::proofs::Stands::stands), unfolding(crate::specs::FapiText::fapi_text_step))]
pub fn fapi_text(alloc: Global, input: &[u8]) -> Result<Answer, Halt>
    ensures answer { Answers (λ answer. answer) (fapi_text_step input.now) result }
    ensures inside { IsInside result }
{
    let export = read_export(alloc, input)?;
    Ok(spelled(alloc, &export.policy)?)
}

#[tactic(auto, using(tpol_export::proofs::ExportErased::export_text_erased))]
fn spelled(alloc: Global, policy: &Policy) -> Result<Answer, NoMemory>
    requires { (d : Data) × (notes : List Place)
        × StandsForPolicy d (erased_policy policy.now) notes }
    ensures { IfOk result (λ answer. answer
        ≡ one_line (export_text (erased_policy policy.now)) Verdict.Done) }
{
    let lines = Lines::of_line(alloc, export_policy(alloc, policy)?)?;
    let verdict = Verdict::Done;
    Ok(Answer { lines, verdict })
}
