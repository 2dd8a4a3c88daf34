//! TPM2_NV_Read (TPM 2.0 Part 3).

ghost use Rattle.tpol_fields.specs.Answers.{Reads};
ghost use Rattle.tpol_wire.specs.Commands.{spell_values};
ghost use Rattle.tpol_wire.specs.Reading.{body_at, reply_at};
ghost use Rattle.tpol_wire.specs.Rows.{row};
ghost use Rattle.tpol_fields.specs.Spellings.{Appends};

use crate::authorization;
use crate::command::Command;
use crate::reply::Reply;
use std::alloc::Global;
use tpol_base::{Blob, CommandCode, Cursor, NoMemory};
use tpol_fields::{HandleType, WireFault, fields, spelling};

/// Reads the handles, the authorization and the parameters: a size of at most 1,024 (TPM_RC_VALUE), and the offset.
pub(crate) fn read(alloc: Global, tagged: bool, cursor: &mut Cursor) -> Result<Command, WireFault>
    ensures { Reads result (body_at CommandCode.NvRead tagged cursor.old) cursor.new }
{
    let authority = fields::handle(cursor, 1, HandleType::Authority)?;
    let index = fields::handle(cursor, 2, HandleType::Index)?;
    let auth = authorization::read(alloc, tagged, cursor)?;
    let size = fields::size(cursor, 1)?;
    let offset = fields::number16(cursor, 2)?;
    Ok(Command::NvRead {
        authority,
        index,
        auth,
        size,
        offset,
    })
}

/// Writes the parameters.
pub(crate) fn write(out: &mut Blob, size: u16, offset: u16) -> Result<(), NoMemory>
    ensures { Appends result out.old out.new
        (spell_values (row CommandCode.NvRead).parameters (size, (offset, tt))) }
{
    spelling::number16(out, size)?;
    spelling::number16(out, offset)
}

/// Reads the fields of the reply.
pub(crate) fn read_reply(alloc: Global, cursor: &mut Cursor) -> Result<Reply, WireFault>
    ensures { Reads result (reply_at CommandCode.NvRead cursor.old) cursor.new }
{
    let bytes = fields::copied_buffer(alloc, cursor, 1, 1024)?;
    Ok(Reply::NvRead { bytes })
}

/// Writes the fields of the reply.
pub(crate) fn write_reply(out: &mut Blob, bytes: &Blob) -> Result<(), NoMemory>
    ensures { Appends result out.old out.new
        (spell_values (row CommandCode.NvRead).reply (bytes.now, tt)) }
{
    spelling::sized(out, bytes.as_slice())
}
