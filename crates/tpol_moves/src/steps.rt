//! The lines of a path's policy commands.

ghost use Rattle.std.specs.Prelude.{◌≡◌, ◌+◌, ◌<◌, ◌^◌, ◌++◌, [], length, IfOk, List, OnOk};
ghost use Rattle.tpol_digest.specs.Digest.{digest_of_moves};
ghost use Rattle.tpol_moves.specs.Steps.{step_line, step_lines};
ghost use Rattle.tpol_tree.specs.declared.path.Move.{Move as OneMove};

use crate::arguments::move_arguments;
use crate::kinds::move_kind;
use crate::values::digest_text;
use std::alloc::Global;
use tpol_base::{Digest32, NoMemory, Text};
use tpol_digest::{digest_after_move, zero_digest};
use tpol_lines::Lines;
use tpol_tree::Move;

/// Adds a line for each policy command of a path, in their order: its number from 1, its kind, its arguments (TPM 2.0
/// Part 3, the policy commands), and the digest that a policy session has after it, where it was new before the first.
/// It fails only where memory ran out; then some of the lines may have been added.
pub fn push_steps(alloc: Global, lines: &mut Lines, moves: &[Move]) -> Result<(), NoMemory>
    ensures added { OnOk result (lines.new ≡ lines.old ++ step_lines [] moves.now) }
{
    push_from(alloc, lines, 1, zero_digest(), moves)
}

// Adds the lines of the policy commands from a number on, where a session has this digest before them.
fn push_from(
    alloc: Global,
    lines: &mut Lines,
    number: usize,
    before: Digest32,
    moves: &[Move],
) -> Result<(), NoMemory>
    requires bound { number + length moves.now < 2 ^ 64 }
    ensures { (sent : List OneMove) → before ≡ digest_of_moves sent → length sent + 1 ≡ number
        → OnOk result (lines.new ≡ lines.old ++ step_lines sent moves.now) }
{
    match moves.split_first() {
        None => Ok(()),
        Some((act, rest)) => {
            let after = digest_after_move(before, act);
            let line = step_line(alloc, number, act, &after)?;
            lines.push_line(line.as_str())?;
            push_from(alloc, lines, number + 1, after, rest)
        }
    }
}

// The line of the policy command of a number, from 1, after which a session has this digest.
fn step_line(alloc: Global, number: usize, act: &Move, after: &Digest32) -> Result<Text, NoMemory>
    ensures { IfOk result (λ line. line ≡ step_line number act.now after.now) }
{
    let kind = move_kind(act);
    let arguments = move_arguments(alloc, act)?;
    let after = digest_text(alloc, after)?;
    Ok(Text::from_string(format!(in alloc; "step {number} {kind}{arguments} after {after}")?))
}
