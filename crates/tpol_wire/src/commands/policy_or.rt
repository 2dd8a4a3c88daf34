//! TPM2_PolicyOR (TPM 2.0 Part 3).

ghost use Rattle.tpol_fields.specs.Answers.{Reads};
ghost use Rattle.tpol_wire.specs.Commands.{spell_values};
ghost use Rattle.tpol_wire.specs.Reading.{body_at};
ghost use Rattle.tpol_wire.specs.Rows.{row};
ghost use Rattle.tpol_fields.specs.Spellings.{Appends};

use crate::command::Command;
use crate::commands::session;
use std::alloc::Global;
use tpol_base::{Blob, CommandCode, Cursor, Digests, NoMemory};
use tpol_fields::{WireFault, fields, spelling};

/// Reads the handle and the parameter: 2 to 8 digests of 32 bytes, another count being TPM_RC_SIZE.
pub(crate) fn read(alloc: Global, tagged: bool, cursor: &mut Cursor) -> Result<Command, WireFault>
    ensures { Reads result (body_at CommandCode.PolicyOr tagged cursor.old) cursor.new }
{
    let session = session::read(tagged, cursor)?;
    let digests = fields::digests(alloc, cursor, 1, 2, 8)?;
    Ok(Command::PolicyOr { session, digests })
}

/// Writes the parameters.
pub(crate) fn write(out: &mut Blob, digests: &Digests) -> Result<(), NoMemory>
    ensures { Appends result out.old out.new
        (spell_values (row CommandCode.PolicyOr).parameters (digests.now, tt)) }
{
    spelling::digests(out, digests)
}
