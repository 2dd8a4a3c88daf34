//! TPM2_PolicyDuplicationSelect (TPM 2.0 Part 3).

ghost use Rattle.tpol_fields.specs.Answers.{Reads};
ghost use Rattle.tpol_wire.specs.Commands.{spell_values};
ghost use Rattle.tpol_wire.specs.Reading.{body_at};
ghost use Rattle.tpol_wire.specs.Rows.{row};
ghost use Rattle.tpol_fields.specs.Spellings.{Appends};

use crate::command::Command;
use crate::commands::session;
use tpol_base::{Blob, CommandCode, Cursor, Name, NoMemory};
use tpol_fields::{WireFault, fields, spelling};

/// Reads the handle and the parameters: objectName, newParentName and includeObject.
pub(crate) fn read(tagged: bool, cursor: &mut Cursor) -> Result<Command, WireFault>
    ensures { Reads result (body_at CommandCode.PolicyDuplicationSelect tagged cursor.old)
        cursor.new }
{
    let session = session::read(tagged, cursor)?;
    let object = fields::name(cursor, 1)?;
    let parent = fields::name(cursor, 2)?;
    let include = fields::truth(cursor, 3)?;
    Ok(Command::PolicyDuplicationSelect {
        session,
        object,
        parent,
        include,
    })
}

/// Writes the parameters.
pub(crate) fn write(
    out: &mut Blob,
    object: &Name,
    parent: &Name,
    include: bool,
) -> Result<(), NoMemory>
    ensures { Appends result out.old out.new
        (spell_values (row CommandCode.PolicyDuplicationSelect).parameters
        (object.now, (parent.now, (include, tt)))) }
{
    spelling::name(out, object)?;
    spelling::name(out, parent)?;
    spelling::truth(out, include)
}
