//! Commands as a run sends them.

ghost use Rattle.std.specs.Prelude.{◌≡◌, IfOk};
ghost use Rattle.tpol_wire.specs.Commands.{spelling};

use std::alloc::Global;
use tpol_base::{Blob, NoMemory};
use tpol_wire::{Command, write_command};

/// The bytes of a command, which is used up.
pub(crate) fn sent_bytes(alloc: Global, command: Command) -> Result<Blob, NoMemory>
    ensures { IfOk result (λ bytes. bytes ≡ spelling command) }
{
    let bytes = write_command(alloc, &command);
    drop(command);
    bytes
}
