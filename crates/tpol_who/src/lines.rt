// The lines of `who`.

ghost use Rattle.std.specs.Prelude.{◌≡◌, ◌∷◌, ◌++◌, [], IfOk, List, OnOk};
ghost use Rattle.tpol_lines.specs.Lines.{line_of};
ghost use Rattle.tpol_lines.specs.PathLine.{label};
ghost use Rattle.tpol_tree.specs.declared.path.PathStep.{PathStep};
ghost use Rattle.tpol_who.specs.Lines.{begin_line, can_line, path_told};

use std::alloc::Global;
use tpol_base::{NoMemory, Text};
use tpol_choose::Block;
use tpol_lines::{Lines, push_block_line};
use tpol_perform::NewRun;

/// The line of a run of the policy of this name, which is about to begin. It fails only where memory ran out.
pub fn begin_line(alloc: Global, run: &NewRun, policy: &str) -> Result<Text, NoMemory>
    ensures { IfOk result (λ line. line ≡ begin_line run.now policy.now) }
{
    let (number, client, locality) = (run.number, run.client, run.locality);
    let line = format!(in alloc; "run {number} client {client} locality {locality} {policy}")?;
    Ok(Text::from_string(line))
}

/// Adds the line of the path at a position, from 1, with its choices as `label` gives them: what stands in its way, or
/// that it can be gone. It fails only where memory ran out.
pub fn push_path(
    alloc: Global,
    position: u32,
    choices: &[u8],
    block: &Option<Block>,
    lines: &mut Lines,
) -> Result<(), NoMemory>
    ensures { (steps : List PathStep) → choices.now ≡ label steps
        → OnOk result (lines.new ≡ lines.old ++ line_of (path_told position steps block.now) ∷ []) }
{
    match block {
        None => push_can_line(alloc, position, choices, lines),
        Some(block) => push_block_line(lines, position, choices, block),
    }
}

// Adds the line of a path that can be gone.
fn push_can_line(
    alloc: Global,
    position: u32,
    choices: &[u8],
    lines: &mut Lines,
) -> Result<(), NoMemory>
    ensures { (steps : List PathStep) → choices.now ≡ label steps
        → OnOk result (lines.new ≡ lines.old ++ line_of (can_line position steps) ∷ []) }
{
    let front = format!(in alloc; "can {position} ")?;
    lines.push_pieces(&[front.as_bytes(), choices, b"\n"])
}
