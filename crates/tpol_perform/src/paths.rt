//! The paths of a policy that a script begins.

ghost use Rattle.std.specs.Prelude.{◌≡◌, All, IfOk};
ghost use Rattle.tpol_digest.specs.Limits.{AreWithinLimits};
ghost use Rattle.tpol_digest.specs.Paths.{paths_of};
ghost use Rattle.tpol_prepare.specs.Scenario.{IsWalkable, paths_named};

use std::alloc::Global;
use tpol_base::{NoMemory, Sequence};
use tpol_digest::{count_paths, path_at_with_memo};
use tpol_prepare::Scenario;
use tpol_steps::CompiledDocument;
use tpol_tree::{Approvals, Paths};

/// The paths of the policy of this name, which the script begins. It fails only where memory ran out.
#[tactic(auto, unfolding(tpol_prepare::specs::Scenario::paths_named))]
pub fn paths_named(alloc: Global, scenario: &Scenario, policy: &str) -> Result<Paths, NoMemory>
    requires begun { All (λ document. IsWalkable scenario.now.approvals document.closed)
        scenario.now.begun }
    ensures paths { IfOk result (λ paths. paths ≡ paths_named scenario.now policy.now) }
{
    match scenario.document(policy) {
        None => Ok(Sequence::new(alloc)),
        Some(document) => all_paths(alloc, document, scenario.approvals.documents()),
    }
}

// All paths of a policy, in order.
#[tactic(auto, using(crate::proofs::AllPaths::taken_step))]
fn all_paths(
    alloc: Global,
    document: &CompiledDocument,
    approvals: &Approvals,
) -> Result<Paths, NoMemory>
    requires within { AreWithinLimits (paths_of document.now.closed approvals.now) }
    ensures paths { IfOk result
        (λ paths. paths ≡ paths_of document.now.closed approvals.now) }
{
    let policy = &document.filled().closed;
    let memo = document.memo();
    let count = count_paths(policy, approvals) as u32;
    let mut paths = Sequence::new(alloc);
    for index in 0..count {
        let path = path_at_with_memo(alloc, policy, memo, approvals, index + 1)?;
        paths.push(path)?;
    }
    Ok(paths)
}
