//! TPM2_Duplicate (TPM 2.0 Part 3).

ghost use Rattle.tpol_fields.specs.Answers.{Reads};
ghost use Rattle.tpol_wire.specs.Commands.{spell_values};
ghost use Rattle.tpol_wire.specs.Reading.{body_at, reply_at};
ghost use Rattle.tpol_wire.specs.Rows.{row};
ghost use Rattle.tpol_fields.specs.Spellings.{Appends};

use crate::authorization;
use crate::command::Command;
use crate::reply::Reply;
use std::alloc::Global;
use tpol_base::constants::TPM_ALG_NULL;
use tpol_base::response_code::VALUE;
use tpol_base::{Blob, CommandCode, Cursor, NoMemory};
use tpol_fields::{HandleType, WireFault, fields, spelling};

/// Reads the handles, the authorization and the parameters: encryptionKeyIn, which is empty (TPM_RC_SIZE), and
/// symmetricAlg, which is TPM_ALG_NULL (TPM_RC_VALUE).
pub(crate) fn read(alloc: Global, tagged: bool, cursor: &mut Cursor) -> Result<Command, WireFault>
    ensures { Reads result (body_at CommandCode.Duplicate tagged cursor.old) cursor.new }
{
    let object = fields::handle(cursor, 1, HandleType::Object)?;
    let parent = fields::handle(cursor, 2, HandleType::Parent)?;
    let auth = authorization::read(alloc, tagged, cursor)?;
    fields::empty(cursor, 1)?;
    fields::fixed(cursor, 2, TPM_ALG_NULL, VALUE)?;
    Ok(Command::Duplicate {
        object,
        parent,
        auth,
    })
}

/// Writes the parameters.
pub(crate) fn write(out: &mut Blob) -> Result<(), NoMemory>
    ensures { Appends result out.old out.new
        (spell_values (row CommandCode.Duplicate).parameters (tt, (tt, tt))) }
{
    spelling::number16(out, 0)?;
    spelling::number16(out, TPM_ALG_NULL)
}

/// Reads the fields of the reply: no encryptionKeyOut, a duplicate of at most 1,024 bytes, and no outSymSeed.
pub(crate) fn read_reply(alloc: Global, cursor: &mut Cursor) -> Result<Reply, WireFault>
    ensures { Reads result (reply_at CommandCode.Duplicate cursor.old) cursor.new }
{
    fields::empty(cursor, 1)?;
    let bytes = fields::copied_buffer(alloc, cursor, 2, 1024)?;
    fields::empty(cursor, 3)?;
    Ok(Reply::Duplicate { bytes })
}

/// Writes the fields of the reply.
pub(crate) fn write_reply(out: &mut Blob, bytes: &Blob) -> Result<(), NoMemory>
    ensures { Appends result out.old out.new
        (spell_values (row CommandCode.Duplicate).reply (tt, (bytes.now, (tt, tt)))) }
{
    spelling::number16(out, 0)?;
    spelling::sized(out, bytes.as_slice())?;
    spelling::number16(out, 0)
}
