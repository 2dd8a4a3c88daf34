ghost use Rattle.std.specs.Prelude.{◌≡◌, IfOk};
ghost use Rattle.tpol_lines.specs.PathLine.{kinds, path_line};

use crate::kinds::move_kind;
use std::alloc::Global;
use tpol_base::{NoMemory, Text};
use tpol_lines::label;
use tpol_tree::{Move, Path};

/// The line of the path at a position, from 1: its choices, and the kinds of its policy commands. It fails only where
/// memory ran out.
pub fn path_line(alloc: Global, position: u32, path: &Path) -> Result<Text, NoMemory>
    ensures line { IfOk result (λ line. line ≡ path_line position path.now) }
{
    let label = label(alloc, path.steps.as_slice())?;
    let label = label.as_str();
    let kinds = kinds(alloc, path.moves.as_slice())?;
    let kinds = kinds.as_str();
    Ok(Text::from_string(format!(in alloc; "path {position} {label} {kinds}")?))
}

// The kinds of policy commands, with `,` between.
fn kinds(alloc: Global, moves: &[Move]) -> Result<Text, NoMemory>
    ensures { IfOk result (λ text. text ≡ kinds moves.now) }
{
    let mut text = Text::new(alloc);
    let Some((first, rest)) = moves.split_first() else {
        return Ok(text);
    };
    text.push_str(move_kind(first))?;
    for act in rest {
        text.push_str(",")?;
        text.push_str(move_kind(act))?;
    }
    Ok(text)
}
