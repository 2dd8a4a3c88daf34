//! TPM2_FlushContext (TPM 2.0 Part 3).

ghost use Rattle.tpol_fields.specs.Answers.{Reads};
ghost use Rattle.tpol_wire.specs.Commands.{spell_values};
ghost use Rattle.tpol_wire.specs.Reading.{body_at};
ghost use Rattle.tpol_wire.specs.Rows.{row};
ghost use Rattle.tpol_fields.specs.Spellings.{Appends};

use crate::authorization;
use crate::command::Command;
use tpol_base::{Blob, CommandCode, Cursor, NoMemory};
use tpol_fields::{HandleType, WireFault, fields, spelling};

/// Reads the parameter: a policy session, which is no handle here (TPM_RC_VALUE, parameter 1).
pub(crate) fn read(tagged: bool, cursor: &mut Cursor) -> Result<Command, WireFault>
    ensures { Reads result (body_at CommandCode.FlushContext tagged cursor.old) cursor.new }
{
    authorization::none(tagged)?;
    let session = fields::handle_parameter(cursor, 1, HandleType::PolicySession)?;
    Ok(Command::FlushContext { session })
}

/// Writes the parameters.
pub(crate) fn write(out: &mut Blob, session: u32) -> Result<(), NoMemory>
    ensures { Appends result out.old out.new
        (spell_values (row CommandCode.FlushContext).parameters (session, tt)) }
{
    spelling::number32(out, session)
}
