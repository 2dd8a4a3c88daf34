//! The command `who`.

ghost use Rattle.std.specs.Prelude.{◌≡◌, ◌≤◌, true, All, IfOk, IfSome, length};
ghost use Rattle.tpol_name.specs.Setups.{IsSetup};
ghost use Rattle.tpol_prepare.specs.Scenario.{CanHappen, IsScenarioOf, IsSceneFor};
ghost use Rattle.tpol_steps.specs.Steps.{Answers, AsksShelf};
ghost use Rattle.tpol_who.specs.Who.{who_answer, who_step};

use crate::survey::tell_scene;
use std::alloc::Global;
use tpol_base::{NoMemory, Shelf};
use tpol_prepare::{Manner, StagedScene, Way, stage};
use tpol_steps::{Answer, Halt, Verdict};

/// The command `who`: the scene in the source, with the policies of the shelf, is carried out as `run` does it. Of each
/// run that its script begins a line tells its number, its client, the locality and its policy's name, and behind that
/// a line for each path of the policy whether it can be gone, and else what stands in its way, with what the machine
/// shows right before the run begins.
///
/// `Refused` tells the first refusal of the scene or of what it names, as of `run`; `ShelfFailed` comes only where the
/// shelf failed, and `NoMemory` where memory ran out. The shelf is asked only once the scene was read.
#[tactic(auto, using(crate::proofs::WhoErased::answer_erased), unfolding(crate::specs::Who::who_step))]
pub fn who<H: Shelf>(alloc: Global, input: &[u8], shelf: &mut H) -> Result<Answer, Halt>
    ensures answer { IfSome (H.documents shelf.old) (λ all.
        Answers (λ answer. answer) (who_step input.now all) result) }
    ensures keeps { H.documents shelf.new ≡ H.documents shelf.old }
    ensures asks { AsksShelf true (IsSceneFor (Manner.Run Way.Sighted) input.now) shelf.old
        shelf.new (H.faults shelf.old) (H.faults shelf.new) result }
{
    let staged = stage(alloc, Manner::Run(Way::Sighted), input, shelf)?;
    Ok(who_answer(alloc, staged)?)
}

// What is told of a scene that is carried out.
fn who_answer(alloc: Global, staged: StagedScene) -> Result<Answer, NoMemory>
    requires setup { IsSetup staged.setup }
    requires scenario { IsScenarioOf staged.setup staged.scenario }
    requires script { All CanHappen staged.script }
    requires few { length staged.script ≤ 4096 }
    ensures { IfOk result (λ answer. answer ≡ who_answer staged) }
{
    let lines = tell_scene(alloc, staged)?;
    let verdict = Verdict::Done;
    Ok(Answer { lines, verdict })
}
