//! TPM2_HMAC (TPM 2.0 Part 3).

ghost use Rattle.tpol_fields.specs.Answers.{Reads};
ghost use Rattle.tpol_wire.specs.Commands.{spell_values};
ghost use Rattle.tpol_wire.specs.Reading.{body_at, reply_at};
ghost use Rattle.tpol_wire.specs.Rows.{row};
ghost use Rattle.tpol_fields.specs.Spellings.{Appends};

use crate::authorization;
use crate::command::Command;
use crate::reply::Reply;
use std::alloc::Global;
use tpol_base::{Blob, CommandCode, Cursor, Digest32, NoMemory};
use tpol_fields::{HandleType, WireFault, fields, spelling};

/// Reads the handle, the authorization and the parameters: a buffer of at most 1,024 bytes, and hashAlg.
pub(crate) fn read(alloc: Global, tagged: bool, cursor: &mut Cursor) -> Result<Command, WireFault>
    ensures { Reads result (body_at CommandCode.Hmac tagged cursor.old) cursor.new }
{
    let key = fields::handle(cursor, 1, HandleType::Object)?;
    let auth = authorization::read(alloc, tagged, cursor)?;
    let buffer = fields::copied_buffer(alloc, cursor, 1, 1024)?;
    let hash = fields::hash(cursor, 2)?;
    Ok(Command::Hmac {
        key,
        auth,
        buffer,
        hash,
    })
}

/// Writes the parameters.
pub(crate) fn write(out: &mut Blob, buffer: &Blob, hash: u16) -> Result<(), NoMemory>
    ensures { Appends result out.old out.new
        (spell_values (row CommandCode.Hmac).parameters (buffer.now, (hash, tt))) }
{
    spelling::sized(out, buffer.as_slice())?;
    spelling::number16(out, hash)
}

/// Reads the fields of the reply.
pub(crate) fn read_reply(cursor: &mut Cursor) -> Result<Reply, WireFault>
    ensures { Reads result (reply_at CommandCode.Hmac cursor.old) cursor.new }
{
    let digest = fields::sized_digest(cursor, 1)?;
    Ok(Reply::Hmac { digest })
}

/// Writes the fields of the reply.
pub(crate) fn write_reply(out: &mut Blob, digest: &Digest32) -> Result<(), NoMemory>
    ensures { Appends result out.old out.new
        (spell_values (row CommandCode.Hmac).reply (digest.now, tt)) }
{
    spelling::sized_digest(out, digest)
}
