//! TPM2_PolicyNameHash (TPM 2.0 Part 3).

ghost use Rattle.tpol_fields.specs.Answers.{Reads};
ghost use Rattle.tpol_wire.specs.Commands.{spell_values};
ghost use Rattle.tpol_wire.specs.Reading.{body_at};
ghost use Rattle.tpol_wire.specs.Rows.{row};
ghost use Rattle.tpol_fields.specs.Spellings.{Appends};

use crate::command::Command;
use crate::commands::session;
use tpol_base::{Blob, CommandCode, Cursor, Digest32, NoMemory};
use tpol_fields::{WireFault, fields, spelling};

/// Reads the handle and the parameter: a nameHash of 32 bytes.
pub(crate) fn read(tagged: bool, cursor: &mut Cursor) -> Result<Command, WireFault>
    ensures { Reads result (body_at CommandCode.PolicyNameHash tagged cursor.old) cursor.new }
{
    let session = session::read(tagged, cursor)?;
    let digest = fields::sized_digest(cursor, 1)?;
    Ok(Command::PolicyNameHash { session, digest })
}

/// Writes the parameters.
pub(crate) fn write(out: &mut Blob, digest: &Digest32) -> Result<(), NoMemory>
    ensures { Appends result out.old out.new
        (spell_values (row CommandCode.PolicyNameHash).parameters (digest.now, tt)) }
{
    spelling::sized_digest(out, digest)
}
