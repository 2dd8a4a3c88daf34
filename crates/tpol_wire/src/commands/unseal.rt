//! TPM2_Unseal (TPM 2.0 Part 3).

ghost use Rattle.tpol_fields.specs.Answers.{Reads};
ghost use Rattle.tpol_wire.specs.Commands.{spell_values};
ghost use Rattle.tpol_wire.specs.Reading.{body_at, reply_at};
ghost use Rattle.tpol_wire.specs.Rows.{row};
ghost use Rattle.tpol_fields.specs.Spellings.{Appends};

use crate::authorization;
use crate::command::Command;
use crate::reply::Reply;
use std::alloc::Global;
use tpol_base::{Blob, CommandCode, Cursor, NoMemory};
use tpol_fields::{HandleType, WireFault, fields, spelling};

/// Reads the handle and the authorization.
pub(crate) fn read(alloc: Global, tagged: bool, cursor: &mut Cursor) -> Result<Command, WireFault>
    ensures { Reads result (body_at CommandCode.Unseal tagged cursor.old) cursor.new }
{
    let object = fields::handle(cursor, 1, HandleType::Object)?;
    let auth = authorization::read(alloc, tagged, cursor)?;
    Ok(Command::Unseal { object, auth })
}

/// Reads the fields of the reply: at most 1,024 bytes of data.
pub(crate) fn read_reply(alloc: Global, cursor: &mut Cursor) -> Result<Reply, WireFault>
    ensures { Reads result (reply_at CommandCode.Unseal cursor.old) cursor.new }
{
    let bytes = fields::copied_buffer(alloc, cursor, 1, 1024)?;
    Ok(Reply::Unseal { bytes })
}

/// Writes the fields of the reply.
pub(crate) fn write_reply(out: &mut Blob, bytes: &Blob) -> Result<(), NoMemory>
    ensures { Appends result out.old out.new
        (spell_values (row CommandCode.Unseal).reply (bytes.now, tt)) }
{
    spelling::sized(out, bytes.as_slice())
}
