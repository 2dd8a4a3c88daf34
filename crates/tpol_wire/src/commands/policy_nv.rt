//! TPM2_PolicyNV (TPM 2.0 Part 3).

ghost use Rattle.tpol_fields.specs.Answers.{Reads};
ghost use Rattle.tpol_wire.specs.Reading.{body_at};

use crate::authorization;
use crate::command::Command;
use crate::commands::comparison;
pub(crate) use crate::commands::comparison::write;
use std::alloc::Global;
use tpol_base::{CommandCode, Cursor};
use tpol_fields::{HandleType, WireFault, fields};

/// Reads the handles, the authorization and the parameters, those of `comparison`.
pub(crate) fn read(alloc: Global, tagged: bool, cursor: &mut Cursor) -> Result<Command, WireFault>
    ensures { Reads result (body_at CommandCode.PolicyNv tagged cursor.old) cursor.new }
{
    let authority = fields::handle(cursor, 1, HandleType::Authority)?;
    let index = fields::handle(cursor, 2, HandleType::Index)?;
    let session = fields::handle(cursor, 3, HandleType::PolicySession)?;
    let auth = authorization::read(alloc, tagged, cursor)?;
    let (operand, offset, operation) = comparison::read(alloc, cursor)?;
    Ok(Command::PolicyNv {
        authority,
        index,
        session,
        auth,
        operand,
        offset,
        operation,
    })
}
