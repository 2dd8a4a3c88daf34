// The lines of a run: where it begins and how it ends.

ghost use Rattle.std.specs.Prelude.{◌≡◌, IfOk};
ghost use Rattle.std.specs.String.{string_bytes};
ghost use Rattle.tpol_lines.specs.Runs.{blind_line, chosen_line, end_line, end_text, nobranch_line, over_line, stage_text};

use crate::hexadecimal::{bytes_text, code_text};
use crate::path_label::label;
use std::alloc::Global;
use tpol_base::{NoMemory, Text};
use tpol_driver::{End, Stage};
use tpol_tree::PathStep;

/// The line of a run that begins on the path at a position, from 1, with the path's choices. It fails only where
/// memory ran out.
pub fn chosen_line(
    alloc: Global,
    run: u16,
    position: u32,
    steps: &[PathStep],
) -> Result<Text, NoMemory>
    ensures { IfOk result (λ line. line ≡ chosen_line run position steps.now) }
{
    let label = label(alloc, steps)?;
    let label = label.as_str();
    Ok(Text::from_string(format!(in alloc; "run {run} path {position} {label}")?))
}

/// The line of a run that has no path to go. It fails only where memory ran out.
pub fn nobranch_line(alloc: Global, run: u16) -> Result<Text, NoMemory>
    ensures { IfOk result (λ line. line ≡ nobranch_line run) }
{
    Ok(Text::from_string(format!(in alloc; "run {run} nobranch")?))
}

/// The line of a run that begins without seeing the machine. It fails only where memory ran out.
pub fn blind_line(alloc: Global, run: u16) -> Result<Text, NoMemory>
    ensures { IfOk result (λ line. line ≡ blind_line run) }
{
    Ok(Text::from_string(format!(in alloc; "run {run} blind")?))
}

/// The line of a run's end: the bytes that the goal gave (`-` for none), or at which command it failed, with
/// the code of a refusal. It fails only where memory ran out.
pub fn end_line(alloc: Global, run: u16, end: &End) -> Result<Text, NoMemory>
    ensures { IfOk result (λ line. line ≡ end_line run end.now) }
{
    let told = end_text(alloc, end)?;
    Ok(Text::from_string(format!(in alloc; "run {run} {told}")?))
}

fn end_text(alloc: Global, end: &End) -> Result<String, NoMemory>
    ensures { IfOk result (λ text. string_bytes text ≡ end_text end.now) }
{
    match end {
        End::Served(bytes) => {
            let bytes = bytes_text(alloc, bytes.as_slice())?;
            Ok(format!(in alloc; "served {bytes}")?)
        }
        End::Denied { at, rc } => {
            let stage = stage_text(alloc, at)?;
            let code = code_text(alloc, rc.code)?;
            Ok(format!(in alloc; "denied {stage} {code}")?)
        }
        End::BadReply(at) => {
            let stage = stage_text(alloc, at)?;
            Ok(format!(in alloc; "badreply {stage}")?)
        }
    }
}

// The command that a reply is about.
pub(crate) fn stage_text(alloc: Global, stage: &Stage) -> Result<String, NoMemory>
    ensures { IfOk result (λ text. string_bytes text ≡ stage_text stage.now) }
{
    match stage {
        Stage::Start => Ok(String::from_str(alloc, "start")?),
        Stage::Verify(place) => Ok(format!(in alloc; "verify {place}")?),
        Stage::Move(place) => Ok(format!(in alloc; "move {place}")?),
        Stage::Goal => Ok(String::from_str(alloc, "goal")?),
        Stage::Restart => Ok(String::from_str(alloc, "restart")?),
    }
}

/// The line of a turn of a run that was over. It fails only where memory ran out.
pub fn over_line(alloc: Global, run: u16) -> Result<Text, NoMemory>
    ensures { IfOk result (λ line. line ≡ over_line run) }
{
    Ok(Text::from_string(format!(in alloc; "run {run} over")?))
}
