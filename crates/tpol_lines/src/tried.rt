//! The line of a path of a blind run that was not served.

ghost use Rattle.std.specs.Prelude.{◌≡◌, IfOk};
ghost use Rattle.std.specs.String.{string_bytes};
ghost use Rattle.tpol_lines.specs.TriedLine.{tried_line, tried_text};

use crate::hexadecimal::code_text;
use crate::path_label::label;
use crate::runs::stage_text;
use std::alloc::Global;
use tpol_base::{NoMemory, Text};
use tpol_driver::Tried;
use tpol_tree::PathStep;

/// The line of the path at a position, from 1, with its choices, and what became of it in a blind run: it was
/// skipped, or at which command it was refused, with the code. It fails only where memory ran out.
pub fn tried_line(
    alloc: Global,
    position: u32,
    steps: &[PathStep],
    tried: &Tried,
) -> Result<Text, NoMemory>
    ensures { IfOk result (λ line. line ≡ tried_line position steps.now tried.now) }
{
    let label = label(alloc, steps)?;
    let label = label.as_str();
    let told = tried_text(alloc, tried)?;
    Ok(Text::from_string(format!(in alloc; "block {position} {label} {told}")?))
}

fn tried_text(alloc: Global, tried: &Tried) -> Result<String, NoMemory>
    ensures { IfOk result (λ text. string_bytes text ≡ tried_text tried.now) }
{
    match tried {
        Tried::Skipped => Ok(String::from_str(alloc, "skipped")?),
        Tried::Refused { at, rc } => {
            let stage = stage_text(alloc, at)?;
            let code = code_text(alloc, rc.code)?;
            Ok(format!(in alloc; "{stage} {code}")?)
        }
    }
}
