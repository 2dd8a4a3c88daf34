ghost use Rattle.std.specs.Prelude.{◌≡◌, IfOk};
ghost use Rattle.tpol_steps.specs.Lines.{digest_line, note_line};

use std::alloc::Global;
use tpol_base::{Digest32, NoMemory, Text};
use tpol_json::{Place, place_text};

/// The line of a policy's digest, without its line end. It fails only where memory ran out.
pub fn digest_line(alloc: Global, digest: &Digest32) -> Result<Text, NoMemory>
    ensures { IfOk result (λ line. line ≡ digest_line digest.now) }
{
    let mut line = Text::from_str(alloc, "digest ")?;
    line.push_str(hex::encode(alloc, digest.bytes.as_slice())?.as_str())?;
    Ok(line)
}

/// The line that notes a member which no row knows, without its line end. It fails only where memory ran out.
pub fn note_line(alloc: Global, place: &Place) -> Result<Text, NoMemory>
    ensures { IfOk result (λ line. line ≡ note_line place.now) }
{
    let mut line = Text::from_str(alloc, "note ")?;
    line.push_str(place_text(alloc, place)?.as_str())?;
    Ok(line)
}
