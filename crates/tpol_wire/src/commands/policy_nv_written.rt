//! TPM2_PolicyNvWritten (TPM 2.0 Part 3).

ghost use Rattle.tpol_fields.specs.Answers.{Reads};
ghost use Rattle.tpol_wire.specs.Commands.{spell_values};
ghost use Rattle.tpol_wire.specs.Reading.{body_at};
ghost use Rattle.tpol_wire.specs.Rows.{row};
ghost use Rattle.tpol_fields.specs.Spellings.{Appends};

use crate::command::Command;
use crate::commands::session;
use tpol_base::{Blob, CommandCode, Cursor, NoMemory};
use tpol_fields::{WireFault, fields, spelling};

/// Reads the handle and the parameter: writtenSet.
pub(crate) fn read(tagged: bool, cursor: &mut Cursor) -> Result<Command, WireFault>
    ensures { Reads result (body_at CommandCode.PolicyNvWritten tagged cursor.old) cursor.new }
{
    let session = session::read(tagged, cursor)?;
    let written = fields::truth(cursor, 1)?;
    Ok(Command::PolicyNvWritten { session, written })
}

/// Writes the parameters.
pub(crate) fn write(out: &mut Blob, written: bool) -> Result<(), NoMemory>
    ensures { Appends result out.old out.new
        (spell_values (row CommandCode.PolicyNvWritten).parameters (written, tt)) }
{
    spelling::truth(out, written)
}
