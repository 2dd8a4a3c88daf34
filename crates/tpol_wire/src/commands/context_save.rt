//! TPM2_ContextSave (TPM 2.0 Part 3).

ghost use Rattle.tpol_fields.specs.Answers.{Reads};
ghost use Rattle.tpol_wire.specs.Commands.{spell_values};
ghost use Rattle.tpol_wire.specs.Reading.{body_at, reply_at};
ghost use Rattle.tpol_wire.specs.Rows.{row};
ghost use Rattle.tpol_fields.specs.Spellings.{Appends};

use crate::command::Command;
use crate::commands::session;
use crate::reply::Reply;
use tpol_base::{Blob, CommandCode, Cursor, Digest32, NoMemory};
use tpol_fields::{WireFault, fields, spelling};

/// Reads the handle.
pub(crate) fn read(tagged: bool, cursor: &mut Cursor) -> Result<Command, WireFault>
    ensures { Reads result (body_at CommandCode.ContextSave tagged cursor.old) cursor.new }
{
    let session = session::read(tagged, cursor)?;
    Ok(Command::ContextSave { session })
}

/// Reads the fields of the reply.
pub(crate) fn read_reply(cursor: &mut Cursor) -> Result<Reply, WireFault>
    ensures { Reads result (reply_at CommandCode.ContextSave cursor.old) cursor.new }
{
    let (sequence, (session, digest)) = fields::context(cursor, 1)?;
    Ok(Reply::ContextSave {
        sequence,
        session,
        digest,
    })
}

/// Writes the fields of the reply.
pub(crate) fn write_reply(
    out: &mut Blob,
    sequence: u64,
    session: u32,
    digest: &Digest32,
) -> Result<(), NoMemory>
    ensures { Appends result out.old out.new
        (spell_values (row CommandCode.ContextSave).reply ((sequence, (session, digest.now)), tt)) }
{
    spelling::context(out, sequence, session, digest)
}
