// The lines of certificates.

ghost use Rattle.std.specs.Prelude.{◌≡◌, IfOk};
ghost use Rattle.tpol_lines.specs.CertLine.{certificate_line, certified_line};

use crate::path_label::label;
use std::alloc::Global;
use tpol_base::{NoMemory, Text};
use tpol_tree::PathStep;

/// The line of the certificate of the opening behind an event: its bytes in hexadecimal. It fails only where memory
/// ran out.
pub fn certificate_line(alloc: Global, event: u32, bytes: &[u8]) -> Result<Text, NoMemory>
    ensures line { IfOk result (λ line. line ≡ certificate_line event bytes.now) }
{
    let bytes = hex::encode(alloc, bytes)?;
    Ok(Text::from_string(format!(in alloc; "cert {event} {bytes}")?))
}

/// The line of the path that a certificate is of: its position from 1, and its choices. It fails only where memory
/// ran out.
pub fn certified_line(alloc: Global, position: u32, steps: &[PathStep]) -> Result<Text, NoMemory>
    ensures line { IfOk result (λ line. line ≡ certified_line position steps.now) }
{
    let label = label(alloc, steps)?;
    let label = label.as_str();
    Ok(Text::from_string(format!(in alloc; "path {position} {label}")?))
}
