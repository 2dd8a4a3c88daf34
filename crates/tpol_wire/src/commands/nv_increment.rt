//! TPM2_NV_Increment (TPM 2.0 Part 3).

ghost use Rattle.tpol_fields.specs.Answers.{Reads};
ghost use Rattle.tpol_wire.specs.Reading.{body_at};

use crate::authorization;
use crate::command::Command;
use std::alloc::Global;
use tpol_base::{CommandCode, Cursor};
use tpol_fields::{HandleType, WireFault, fields};

/// Reads the handles and the authorization.
pub(crate) fn read(alloc: Global, tagged: bool, cursor: &mut Cursor) -> Result<Command, WireFault>
    ensures { Reads result (body_at CommandCode.NvIncrement tagged cursor.old) cursor.new }
{
    let authority = fields::handle(cursor, 1, HandleType::Authority)?;
    let index = fields::handle(cursor, 2, HandleType::Index)?;
    let auth = authorization::read(alloc, tagged, cursor)?;
    Ok(Command::NvIncrement {
        authority,
        index,
        auth,
    })
}
