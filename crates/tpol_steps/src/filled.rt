ghost use Rattle.std.specs.Option.{option_copied};
ghost use Rattle.std.specs.Prelude.{IfOk};
ghost use Rattle.tpol_fill.specs.Forms.{IsFilledPolicy};
ghost use Rattle.tpol_steps.specs.Filled.{filled_step};
ghost use Rattle.tpol_steps.specs.Steps.{Answers, IsInside};
ghost use Rattle.tpol_tree.specs.Bounds.{HasBounds, HasClosedBounds};
ghost use Rattle.tpol_tree.specs.ClosedErased.{erased};
ghost use Rattle.tpol_tree.specs.Elements as written;
ghost use Rattle.tpol_tree.specs.Erased.{erased_policy};

use crate::halt::Halt;
use crate::refusals::{bad_policy, fill_kind_name};
use std::alloc::Global;
use tpol_base::Text;
use tpol_fill::{FillFault, fill};
use tpol_name::Sight;
use tpol_tree::{Closed, Policy};

/// A policy document of the shelf, by its name without `.json`, and the policy that it is when it is filled.
#[derive(Drop)]
pub struct FilledDocument {
    pub name: Text,
    pub closed: Closed,
}

/// Gives every wish of a document, with the values of a machine where a sight of one is given. The document is one
/// of the shelf where it is named.
///
/// `Refused` tells the first place that has no value; `NoMemory` comes where memory ran out, and nothing else comes.
#[tactic(auto, using(crate::proofs::FilledErased::filled_step_erased))]
pub fn fill_document(
    alloc: Global,
    document: Option<&Text>,
    policy: &Policy,
    sight: Option<&Sight>,
) -> Result<Closed, Halt>
    ensures answer { Answers erased
        (filled_step (option_copied document.entry) (erased_policy policy.now)
        (option_copied sight.entry)) result }
    ensures inside { IsInside result }
    ensures form { written.HasBranchCounts policy.now.elements → IfOk result IsFilledPolicy }
    ensures bounded { HasBounds policy.now → IfOk result HasClosedBounds }
{
    fill_as_it_lies(alloc, document, policy, sight)
}

#[tactic(auto, unfolding(crate::specs::Filled::filled_step))]
fn fill_as_it_lies(
    alloc: Global,
    document: Option<&Text>,
    policy: &Policy,
    sight: Option<&Sight>,
) -> Result<Closed, Halt>
    ensures answer { Answers erased
        (filled_step (option_copied document.entry) policy.now (option_copied sight.entry)) result }
    ensures inside { IsInside result }
    ensures form { written.HasBranchCounts policy.now.elements → IfOk result IsFilledPolicy }
    ensures bounded { HasBounds policy.now → IfOk result HasClosedBounds }
{
    match fill(alloc, policy, sight) {
        Ok(closed) => Ok(closed),
        Err(FillFault::Bad { kind, place }) => {
            let kind = fill_kind_name(kind);
            Err(Halt::Refused(bad_policy(alloc, kind, document, &place)?))
        }
        Err(FillFault::NoMemory) => Err(Halt::NoMemory),
    }
}
