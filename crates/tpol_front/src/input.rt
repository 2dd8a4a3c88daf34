ghost use Rattle.std.specs.Prelude.{◌≡◌, [], Some, IfSome, IfOk, take, drop};
ghost use Rattle.tpol_base.specs.Causes.{HasLapse, IsQuiet};
ghost use Rattle.tpol_front.specs.Outside.{LosesAtMost};

use std::alloc::Global;
use tpol_base::{Blob, Failed, Lapse, NoMemory, Source};

// The room at first. What outgrows its room is copied, and room that nothing is written to costs no memory. A room of
// this size is its own piece of memory: to let it go joins no others.
const ROOM: usize = 262_144;

/// Reads a source to its end, or to its byte `limit`.
///
/// `Failed` comes only where the source's count of faults rose in this call, or stands at its last value, and the
/// count rises in no call that is answered otherwise. `NoMemory` comes where memory ran out. After either the source
/// may have lost bytes, its first `limit` at most.
pub fn read_input<S: Source>(alloc: Global, source: &mut S, limit: usize) -> Result<Blob, Lapse>
    ensures whole { IfSome (S.left source.old) (λ held. IfOk result (λ bytes.
        (bytes ≡ take limit held) × (S.left source.new ≡ Some (drop limit held)))) }
    ensures at_most { LosesAtMost limit (S.left source.old) (S.left source.new) }
    ensures cause { HasLapse (S.faults source.old) (S.faults source.new) result }
    ensures quiet { IsQuiet (S.faults source.old) (S.faults source.new) result }
{
    let mut bytes = with_room(alloc)?;
    let mut piece = [0; 4096];
    for _turn in 0..limit {
        let want = piece.len().min(limit - bytes.len());
        if want == 0 {
            return Ok(bytes);
        }
        match source.read(&mut piece[..want]) {
            Ok(0) => return Ok(bytes),
            Ok(count) => bytes.extend_from_slice(&piece[..count])?,
            Err(Failed) => return Err(Lapse::Failed),
        }
    }
    Ok(bytes)
}

// No byte, with room for more.
fn with_room(alloc: Global) -> Result<Blob, NoMemory>
    ensures { IfOk result (λ bytes. bytes ≡ []) }
{
    Ok(Blob::from_vec(Vec::with_capacity(alloc, ROOM)?))
}
