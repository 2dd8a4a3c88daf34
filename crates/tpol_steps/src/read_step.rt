ghost use Rattle.std.specs.Prelude.{IfOk};
ghost use Rattle.tpol_steps.specs.ReadStep.{read_step};
ghost use Rattle.tpol_steps.specs.Steps.{Answers, IsInside};
ghost use Rattle.tpol_tree.specs.Elements as written;
ghost use Rattle.tpol_tree.specs.Erased.{erased_policy};

use crate::halt::Halt;
use crate::refusals::{bad_policy, policy_kind_name, policy_not_json};
use std::alloc::Global;
use tpol_read::{Notes, PolicyFault, read_policy};
use tpol_tree::Policy;

/// Reads the document in the source, with the members that no row knows, its notes.
///
/// `Refused` tells the document's first fault; `NoMemory` comes where memory ran out, and nothing else comes.
#[tactic(auto, unfolding(crate::specs::ReadStep::read_step))]
pub fn read_document(alloc: Global, input: &[u8]) -> Result<(Policy, Notes), Halt>
    ensures answer { Answers (λ found. (erased_policy found.0, found.1))
        (read_step input.now) result }
    ensures inside { IsInside result }
    ensures branches { IfOk result (λ found. written.HasBranchCounts found.0.elements) }
{
    match read_policy(alloc, input) {
        Ok(found) => Ok(found),
        Err(PolicyFault::NotJson) => Err(Halt::Refused(policy_not_json(alloc, None)?)),
        Err(PolicyFault::Bad { kind, place }) => {
            let kind = policy_kind_name(kind);
            Err(Halt::Refused(bad_policy(alloc, kind, None, &place)?))
        }
        Err(PolicyFault::NoMemory) => Err(Halt::NoMemory),
    }
}
