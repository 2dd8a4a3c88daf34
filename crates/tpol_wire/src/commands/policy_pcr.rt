//! TPM2_PolicyPCR (TPM 2.0 Part 3).

ghost use Rattle.tpol_fields.specs.Answers.{Reads};
ghost use Rattle.tpol_wire.specs.Commands.{spell_values};
ghost use Rattle.tpol_wire.specs.Reading.{body_at};
ghost use Rattle.tpol_wire.specs.Rows.{row};
ghost use Rattle.tpol_fields.specs.Spellings.{Appends};

use crate::command::Command;
use crate::commands::session;
use tpol_base::{Blob, CommandCode, Cursor, Digest32, NoMemory};
use tpol_fields::{WireFault, fields, spelling};

/// Reads the handle and the parameters: a pcrDigest of 0 or 32 bytes, and one selection, of SHA-256.
pub(crate) fn read(tagged: bool, cursor: &mut Cursor) -> Result<Command, WireFault>
    ensures { Reads result (body_at CommandCode.PolicyPcr tagged cursor.old) cursor.new }
{
    let session = session::read(tagged, cursor)?;
    let given = fields::optional(cursor, 1)?;
    let mask = fields::selection(cursor, 2)?;
    Ok(Command::PolicyPcr {
        session,
        given,
        mask,
    })
}

/// Writes the parameters.
pub(crate) fn write(out: &mut Blob, given: &Option<Digest32>, mask: u32) -> Result<(), NoMemory>
    ensures { Appends result out.old out.new
        (spell_values (row CommandCode.PolicyPcr).parameters (given.now, (mask, tt))) }
{
    spelling::optional(out, given)?;
    spelling::selection(out, mask)
}
