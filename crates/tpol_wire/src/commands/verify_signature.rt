//! TPM2_VerifySignature (TPM 2.0 Part 3).

ghost use Rattle.tpol_fields.specs.Answers.{Reads};
ghost use Rattle.tpol_wire.specs.Commands.{spell_values};
ghost use Rattle.tpol_wire.specs.Reading.{body_at, reply_at};
ghost use Rattle.tpol_wire.specs.Rows.{row};
ghost use Rattle.tpol_fields.specs.Spellings.{Appends};

use crate::authorization;
use crate::command::Command;
use crate::reply::Reply;
use std::alloc::Global;
use tpol_base::{Blob, CommandCode, Cursor, Digest32, NoMemory};
use tpol_fields::{HandleType, Ticket, WireFault, fields, spelling};

/// Reads the handle and the parameters: a digest of 32 bytes, and a signature by an HMAC with SHA-256.
pub(crate) fn read(tagged: bool, cursor: &mut Cursor) -> Result<Command, WireFault>
    ensures { Reads result (body_at CommandCode.VerifySignature tagged cursor.old) cursor.new }
{
    let key = fields::handle(cursor, 1, HandleType::Object)?;
    authorization::none(tagged)?;
    let digest = fields::sized_digest(cursor, 1)?;
    let signature = fields::signature(cursor, 2)?;
    Ok(Command::VerifySignature {
        key,
        digest,
        signature,
    })
}

/// Writes the parameters.
pub(crate) fn write(out: &mut Blob, digest: &Digest32, signature: &Digest32) -> Result<(), NoMemory>
    ensures { Appends result out.old out.new
        (spell_values (row CommandCode.VerifySignature).parameters
        (digest.now, (signature.now, tt))) }
{
    spelling::sized_digest(out, digest)?;
    spelling::signature(out, signature)
}

/// Reads the fields of the reply.
pub(crate) fn read_reply(alloc: Global, cursor: &mut Cursor) -> Result<Reply, WireFault>
    ensures { Reads result (reply_at CommandCode.VerifySignature cursor.old) cursor.new }
{
    let ticket = fields::ticket(alloc, cursor, 1)?;
    Ok(Reply::VerifySignature { ticket })
}

/// Writes the fields of the reply.
pub(crate) fn write_reply(out: &mut Blob, ticket: &Ticket) -> Result<(), NoMemory>
    ensures { Appends result out.old out.new
        (spell_values (row CommandCode.VerifySignature).reply (ticket.now, tt)) }
{
    spelling::ticket(out, ticket)
}
