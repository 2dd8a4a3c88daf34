//! TPM2_ContextLoad (TPM 2.0 Part 3).

ghost use Rattle.tpol_fields.specs.Answers.{Reads};
ghost use Rattle.tpol_wire.specs.Commands.{spell_values};
ghost use Rattle.tpol_wire.specs.Reading.{body_at, reply_at};
ghost use Rattle.tpol_wire.specs.Rows.{row};
ghost use Rattle.tpol_fields.specs.Spellings.{Appends};

use crate::authorization;
use crate::command::Command;
use crate::reply::Reply;
use tpol_base::{Blob, CommandCode, Cursor, Digest32, NoMemory};
use tpol_fields::{HandleType, WireFault, fields, spelling};

/// Reads the parameter: the context of a policy session.
pub(crate) fn read(tagged: bool, cursor: &mut Cursor) -> Result<Command, WireFault>
    ensures { Reads result (body_at CommandCode.ContextLoad tagged cursor.old) cursor.new }
{
    authorization::none(tagged)?;
    let (sequence, (session, digest)) = fields::context(cursor, 1)?;
    Ok(Command::ContextLoad {
        sequence,
        session,
        digest,
    })
}

/// Writes the parameters.
pub(crate) fn write(
    out: &mut Blob,
    sequence: u64,
    session: u32,
    digest: &Digest32,
) -> Result<(), NoMemory>
    ensures { Appends result out.old out.new
        (spell_values (row CommandCode.ContextLoad).parameters
        ((sequence, (session, digest.now)), tt)) }
{
    spelling::context(out, sequence, session, digest)
}

/// Reads the fields of the reply.
pub(crate) fn read_reply(cursor: &mut Cursor) -> Result<Reply, WireFault>
    ensures { Reads result (reply_at CommandCode.ContextLoad cursor.old) cursor.new }
{
    let session = fields::handle_parameter(cursor, 1, HandleType::PolicySession)?;
    Ok(Reply::ContextLoad { session })
}

/// Writes the fields of the reply.
pub(crate) fn write_reply(out: &mut Blob, session: u32) -> Result<(), NoMemory>
    ensures { Appends result out.old out.new
        (spell_values (row CommandCode.ContextLoad).reply (session, tt)) }
{
    spelling::number32(out, session)
}
