// The lines of paths that can never open.

ghost use Rattle.std.specs.Prelude.{◌≡◌, ◌-◌, ◌≤◌, IfOk, List, length};
ghost use Rattle.std.specs.List.{slice_get};
ghost use Rattle.tpol_digest.specs.Limits.{AreWithinLimits};
ghost use Rattle.tpol_digest.specs.Paths.{paths_of};
ghost use Rattle.tpol_lines.specs.LintLine.{dead_line, lint_line, rule_word};
ghost use Rattle.tpol_lines.specs.OpeningLine.{steps_of};
ghost use Rattle.tpol_lines.specs.PathLine.{label};
ghost use Rattle.tpol_tree.specs.declared.path.PathStep.{PathStep as OneStep};

use crate::one_label::label_at;
use std::alloc::Global;
use tpol_base::{NoMemory, Text};
use tpol_lint::{Dead, DeadRule};
use tpol_tree::{Approvals, Closed};

/// The line of a path that can never open, which is not made: its position from 1, its choices, the rule that its
/// moves break, and the number of the move, from 1, by which they do. It fails only where memory ran out.
pub fn dead_line_at(
    alloc: Global,
    policy: &Closed,
    approvals: &Approvals,
    dead: &Dead,
) -> Result<Text, NoMemory>
    requires within { AreWithinLimits (paths_of policy.now approvals.now) }
    requires positions { (1 ≤ dead.now.path)
        × (dead.now.path ≤ length (paths_of policy.now approvals.now)) }
    ensures line { IfOk result (λ line. line ≡ dead_line dead.now
        (steps_of (slice_get (paths_of policy.now approvals.now) (dead.now.path - 1)))) }
{
    let choices = label_at(alloc, policy, approvals, dead.path)?;
    line_with(alloc, dead, choices.as_str())
}

// The line with the choices of the path.
fn line_with(alloc: Global, dead: &Dead, choices: &str) -> Result<Text, NoMemory>
    ensures { (steps : List OneStep) → choices.now ≡ label steps
        → IfOk result (λ line. line ≡ dead_line dead.now steps) }
{
    let position = dead.path;
    let rule = rule_word(&dead.rule);
    let at = dead.at;
    Ok(Text::from_string(format!(in alloc; "dead {position} {choices} {rule} move {at}")?))
}

// The word for the rule that moves break.
fn rule_word(rule: &DeadRule) -> &'static str
    ensures { result.now ≡ rule_word rule.now }
{
    match rule {
        DeadRule::Code => "Code",
        DeadRule::Locality => "Locality",
        DeadRule::CpHash => "CpHash",
        DeadRule::NameHash => "NameHash",
        DeadRule::Kinds => "Kinds",
        DeadRule::NvWritten => "NvWritten",
    }
}

/// The line of how many of all paths can never open. It fails only where memory ran out.
pub fn lint_line(alloc: Global, dead: usize, all: u64) -> Result<Text, NoMemory>
    ensures line { IfOk result (λ line. line ≡ lint_line dead all) }
{
    Ok(Text::from_string(format!(in alloc; "lint {dead} of {all}")?))
}
