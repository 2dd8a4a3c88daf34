//! TPM2_NV_Write (TPM 2.0 Part 3).

ghost use Rattle.tpol_fields.specs.Answers.{Reads};
ghost use Rattle.tpol_wire.specs.Commands.{spell_values};
ghost use Rattle.tpol_wire.specs.Reading.{body_at};
ghost use Rattle.tpol_wire.specs.Rows.{row};
ghost use Rattle.tpol_fields.specs.Spellings.{Appends};

use crate::authorization;
use crate::command::Command;
use std::alloc::Global;
use tpol_base::{Blob, CommandCode, Cursor, NoMemory};
use tpol_fields::{HandleType, WireFault, fields, spelling};

/// Reads the handles, the authorization and the parameters: at most 1,024 bytes of data, and the offset.
pub(crate) fn read(alloc: Global, tagged: bool, cursor: &mut Cursor) -> Result<Command, WireFault>
    ensures { Reads result (body_at CommandCode.NvWrite tagged cursor.old) cursor.new }
{
    let authority = fields::handle(cursor, 1, HandleType::Authority)?;
    let index = fields::handle(cursor, 2, HandleType::Index)?;
    let auth = authorization::read(alloc, tagged, cursor)?;
    let bytes = fields::copied_buffer(alloc, cursor, 1, 1024)?;
    let offset = fields::number16(cursor, 2)?;
    Ok(Command::NvWrite {
        authority,
        index,
        auth,
        bytes,
        offset,
    })
}

/// Writes the parameters.
pub(crate) fn write(out: &mut Blob, bytes: &Blob, offset: u16) -> Result<(), NoMemory>
    ensures { Appends result out.old out.new
        (spell_values (row CommandCode.NvWrite).parameters (bytes.now, (offset, tt))) }
{
    spelling::sized(out, bytes.as_slice())?;
    spelling::number16(out, offset)
}
