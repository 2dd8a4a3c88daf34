//! TPM2_PCR_Extend (TPM 2.0 Part 3).

ghost use Rattle.tpol_fields.specs.Answers.{Reads};
ghost use Rattle.tpol_wire.specs.Commands.{spell_values};
ghost use Rattle.tpol_wire.specs.Reading.{body_at};
ghost use Rattle.tpol_wire.specs.Rows.{row};
ghost use Rattle.tpol_fields.specs.Spellings.{Appends};

use crate::authorization;
use crate::command::Command;
use std::alloc::Global;
use tpol_base::{Blob, CommandCode, Cursor, Digest32, NoMemory};
use tpol_fields::{HandleType, WireFault, fields, spelling};

/// Reads the handle, the authorization and the parameter: one digest, of SHA-256.
pub(crate) fn read(alloc: Global, tagged: bool, cursor: &mut Cursor) -> Result<Command, WireFault>
    ensures { Reads result (body_at CommandCode.PcrExtend tagged cursor.old) cursor.new }
{
    let pcr = fields::handle(cursor, 1, HandleType::Pcr)?;
    let auth = authorization::read(alloc, tagged, cursor)?;
    let digest = fields::digest_values(cursor, 1)?;
    Ok(Command::PcrExtend { pcr, auth, digest })
}

/// Writes the parameters.
pub(crate) fn write(out: &mut Blob, digest: &Digest32) -> Result<(), NoMemory>
    ensures { Appends result out.old out.new
        (spell_values (row CommandCode.PcrExtend).parameters (digest.now, tt)) }
{
    spelling::digest_values(out, digest)
}
