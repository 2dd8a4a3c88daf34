// The commands that carry out a scene.

ghost use Rattle.std.specs.Prelude.{◌≡◌, ◌≤◌, true, All, IfOk, IfSome, length};
ghost use Rattle.tpol_name.specs.Setups.{IsSetup};
ghost use Rattle.tpol_perform.specs.Explained.{IsExplainedScene};
ghost use Rattle.tpol_perform.specs.Script.{perform_step, performance_answer};
ghost use Rattle.tpol_prepare.specs.Manner.{explains};
ghost use Rattle.tpol_prepare.specs.Scenario.{CanHappen, IsScenarioOf, IsSceneFor};
ghost use Rattle.tpol_steps.specs.Steps.{Answers, AsksShelf, IfAnswered};

use crate::performance::Performance;
use crate::script::perform;
use std::alloc::Global;
use tpol_base::{NoMemory, Shelf};
use tpol_prepare::{Manner, StagedScene, stage};
use tpol_steps::{Answer, Halt, Verdict};

/// The commands that carry out a scene: the one in the source, with the policies of the shelf. Each event is told, and
/// what else the manner says.
///
/// `Refused` tells the first refusal of the scene or of what it names, as `stage` does; `ShelfFailed` comes only where
/// the shelf failed, and `NoMemory` where memory ran out. The shelf is asked only once the scene was read and begins
/// no ninth blind run.
#[tactic(auto, using(crate::proofs::PerformanceErased::answer_erased, crate::proofs::ExplainedErased::halted_explained), unfolding(crate::specs::Script::perform_step))]
pub fn perform_scene<H: Shelf>(
    alloc: Global,
    manner: Manner,
    input: &[u8],
    shelf: &mut H,
) -> Result<Answer, Halt>
    ensures answer { IfSome (H.documents shelf.old) (λ all.
        Answers (λ answer. answer) (perform_step manner input.now all) result) }
    ensures explained { explains manner ≡ true
        → IfAnswered result (λ answer. answer.verdict ≡ Verdict.Done
        → IfSome (H.documents shelf.old)
        (λ all. IsExplainedScene manner input.now all answer.lines)) }
    ensures keeps { H.documents shelf.new ≡ H.documents shelf.old }
    ensures asks { AsksShelf true (IsSceneFor manner input.now) shelf.old shelf.new
        (H.faults shelf.old) (H.faults shelf.new) result }
{
    let staged = stage(alloc, manner, input, shelf)?;
    Ok(performance_answer(alloc, staged)?)
}

// The lines of a scene that is carried out.
fn performance_answer(alloc: Global, staged: StagedScene) -> Result<Answer, NoMemory>
    requires setup { IsSetup staged.setup }
    requires scenario { IsScenarioOf staged.setup staged.scenario }
    requires script { All CanHappen staged.script }
    requires few { length staged.script ≤ 4096 }
    ensures { IfOk result (λ answer. answer ≡ performance_answer staged) }
{
    let Performance {
        machine,
        runs,
        kept,
        lines,
        ..
    } = perform(alloc, staged)?;
    drop(machine);
    drop(runs);
    drop(kept);
    Ok(Answer {
        lines,
        verdict: Verdict::Done,
    })
}
