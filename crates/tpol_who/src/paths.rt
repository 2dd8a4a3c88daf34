// The lines of the paths of a policy: which a run can go, and what stands in its way on the others.

ghost use Rattle.std.specs.Prelude.{◌≡◌, ◌++◌, ◌≤◌, List, OnOk, length, map};
ghost use Rattle.tpol_digest.specs.Paths.{paths_of};
ghost use Rattle.tpol_lines.specs.PathLine.{label};
ghost use Rattle.tpol_name.specs.Setups.{IsSight};
ghost use Rattle.tpol_name.specs.declared.sight.Sight.{Sight as OneSight};
ghost use Rattle.tpol_perform.specs.declared.new_run.NewRun.{NewRun as OneRun};
ghost use Rattle.tpol_prepare.specs.Scenario.{IsWalkable};
ghost use Rattle.tpol_tree.specs.declared.path.Path.{Path as OnePath};
ghost use Rattle.tpol_who.specs.Lines.{block_for, paths_told};

use crate::lines::push_path;
use std::alloc::Global;
use tpol_base::NoMemory;
use tpol_choose::{Block, blocks};
use tpol_lines::{Lines, labels};
use tpol_name::Sight;
use tpol_perform::NewRun;
use tpol_steps::CompiledDocument;
use tpol_store::CompiledApprovals;
use tpol_texts::Texts;

/// Adds a line for each path of a policy, in order, with what the machine shows. It fails only where memory ran out.
pub fn push_paths(
    alloc: Global,
    document: &CompiledDocument,
    approvals: &CompiledApprovals,
    sight: &Sight,
    run: &NewRun,
    lines: &mut Lines,
) -> Result<(), NoMemory>
    requires walked { IsWalkable approvals.now document.now.closed }
    requires sight { IsSight sight.now }
    ensures { OnOk result (lines.new
        ≡ lines.old ++ paths_told sight.now run.now 1
        (paths_of document.now.closed approvals.now)) }
{
    let policy = &document.filled().closed;
    let documents = approvals.documents();
    let blocks = blocks(
        alloc,
        policy,
        document.memo(),
        documents,
        approvals.memos(),
        sight,
        &run.grants,
        &run.goal,
        run.locality,
    )?;
    match labels(alloc, policy, documents) {
        Ok(labels) => {
            let pushed = push_list(alloc, &labels, &blocks, lines);
            drop(labels);
            drop(blocks);
            pushed
        }
        Err(NoMemory) => {
            drop(blocks);
            Err(NoMemory)
        }
    }
}

// The lines of paths with these labels, from the first on, by what stands in the way of each.
#[tactic(auto, using(crate::proofs::PathLines::paths_over))]
fn push_list(
    alloc: Global,
    labels: &Texts,
    blocks: &[Option<Block>],
    lines: &mut Lines,
) -> Result<(), NoMemory>
    requires alike { length labels.now ≡ length blocks.now }
    requires few { length blocks.now ≤ 65536 }
    ensures { (sight : OneSight) (run : OneRun) (paths : List OnePath)
        → blocks.now ≡ map (block_for sight run) paths
        → labels.now ≡ map (λ path. label path.steps) paths
        → OnOk result (lines.new ≡ lines.old ++ paths_told sight run 1 paths) }
{
    for index in 0..blocks.len() {
        let position = index as u32 + 1;
        push_path(alloc, position, labels.get(index), &blocks[index], lines)?;
    }
    Ok(())
}
