//! TPM2_PCR_Read (TPM 2.0 Part 3).

ghost use Rattle.tpol_fields.specs.Answers.{Reads};
ghost use Rattle.tpol_wire.specs.Commands.{spell_values};
ghost use Rattle.tpol_wire.specs.Reading.{body_at, reply_at};
ghost use Rattle.tpol_wire.specs.Rows.{row};
ghost use Rattle.tpol_fields.specs.Spellings.{Appends};

use crate::authorization;
use crate::command::Command;
use crate::reply::Reply;
use std::alloc::Global;
use tpol_base::{Blob, CommandCode, Cursor, Digests, NoMemory};
use tpol_fields::{WireFault, fields, spelling};

/// Reads the parameter: one selection, of SHA-256.
pub(crate) fn read(tagged: bool, cursor: &mut Cursor) -> Result<Command, WireFault>
    ensures { Reads result (body_at CommandCode.PcrRead tagged cursor.old) cursor.new }
{
    authorization::none(tagged)?;
    let mask = fields::selection(cursor, 1)?;
    Ok(Command::PcrRead { mask })
}

/// Writes the parameters.
pub(crate) fn write(out: &mut Blob, mask: u32) -> Result<(), NoMemory>
    ensures { Appends result out.old out.new
        (spell_values (row CommandCode.PcrRead).parameters (mask, tt)) }
{
    spelling::selection(out, mask)
}

/// Reads the fields of the reply: the update counter, one selection, and at most 8 digests.
pub(crate) fn read_reply(alloc: Global, cursor: &mut Cursor) -> Result<Reply, WireFault>
    ensures { Reads result (reply_at CommandCode.PcrRead cursor.old) cursor.new }
{
    let counter = fields::number32(cursor, 1)?;
    let mask = fields::selection(cursor, 2)?;
    let digests = fields::digests(alloc, cursor, 3, 0, 8)?;
    Ok(Reply::PcrRead {
        counter,
        mask,
        digests,
    })
}

/// Writes the fields of the reply.
pub(crate) fn write_reply(
    out: &mut Blob,
    counter: u32,
    mask: u32,
    digests: &Digests,
) -> Result<(), NoMemory>
    ensures { Appends result out.old out.new
        (spell_values (row CommandCode.PcrRead).reply (counter, (mask, (digests.now, tt)))) }
{
    spelling::number32(out, counter)?;
    spelling::selection(out, mask)?;
    spelling::digests(out, digests)
}
