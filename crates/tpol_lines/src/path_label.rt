ghost use Rattle.std.specs.Prelude.{◌≡◌, ◌++◌, IfOk, OnOk};
ghost use Rattle.tpol_lines.specs.PathLine.{label, step_text};

use std::alloc::Global;
use tpol_base::{NoMemory, Text};
use tpol_json::quoted;
use tpol_tree::PathStep;

/// The choices of a path, with `/` between, or `-` where there is none. It fails only where memory ran out.
pub fn label(alloc: Global, steps: &[PathStep]) -> Result<Text, NoMemory>
    ensures { IfOk result (λ text. text ≡ label steps.now) }
{
    let mut text = Text::new(alloc);
    let Some((first, rest)) = steps.split_first() else {
        text.push_str("-")?;
        return Ok(text);
    };
    push_step(alloc, &mut text, first)?;
    for step in rest {
        text.push_str("/")?;
        push_step(alloc, &mut text, step)?;
    }
    Ok(text)
}

fn push_step(alloc: Global, text: &mut Text, step: &PathStep) -> Result<(), NoMemory>
    ensures { OnOk result (text.new ≡ text.old ++ step_text step.now) }
{
    match step {
        PathStep::Branch { position: _, name } => text.push_str(quoted(
            alloc,
            name.as_str(),
        )?.as_str()),
        PathStep::Document(name) => {
            text.push_str("@")?;
            text.push_str(quoted(alloc, name.as_str())?.as_str())
        }
        PathStep::Outside => text.push_str("@*"),
    }
}
