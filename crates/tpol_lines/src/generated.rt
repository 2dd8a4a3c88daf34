// The lines of a policy that is generated.

ghost use Rattle.std.specs.Prelude.{◌≡◌, IfOk};
ghost use Rattle.tpol_lines.specs.Generated.{command_count_line, generated_line, path_count_line};

use std::alloc::Global;
use tpol_base::{NoMemory, Text};

/// The line that says what is generated: how many ORs, and the number by whose bits their branches are
/// ordered. It fails only where memory ran out.
pub fn generated_line(alloc: Global, ors: u32, order: u32) -> Result<Text, NoMemory>
    ensures { IfOk result (λ line. line ≡ generated_line ors order) }
{
    Ok(Text::from_string(format!(in alloc; "gen {ors} {order}")?))
}

/// The line of how many paths a policy has. It fails only where memory ran out.
pub fn path_count_line(alloc: Global, count: u32) -> Result<Text, NoMemory>
    ensures { IfOk result (λ line. line ≡ path_count_line count) }
{
    Ok(Text::from_string(format!(in alloc; "paths {count}")?))
}

/// The line of how many commands were executed. It fails only where memory ran out.
pub fn command_count_line(alloc: Global, count: u32) -> Result<Text, NoMemory>
    ensures { IfOk result (λ line. line ≡ command_count_line count) }
{
    Ok(Text::from_string(format!(in alloc; "commands {count}")?))
}
