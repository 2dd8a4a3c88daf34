//! TPM2_PolicyPhysicalPresence (TPM 2.0 Part 3).

ghost use Rattle.tpol_fields.specs.Answers.{Reads};
ghost use Rattle.tpol_wire.specs.Reading.{body_at};

use crate::command::Command;
use crate::commands::session;
use tpol_base::{CommandCode, Cursor};
use tpol_fields::WireFault;

/// Reads the handle.
pub(crate) fn read(tagged: bool, cursor: &mut Cursor) -> Result<Command, WireFault>
    ensures { Reads result (body_at CommandCode.PolicyPhysicalPresence tagged cursor.old)
        cursor.new }
{
    let session = session::read(tagged, cursor)?;
    Ok(Command::PolicyPhysicalPresence { session })
}
