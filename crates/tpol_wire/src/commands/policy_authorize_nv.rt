//! TPM2_PolicyAuthorizeNV (TPM 2.0 Part 3).

ghost use Rattle.tpol_fields.specs.Answers.{Reads};
ghost use Rattle.tpol_wire.specs.Reading.{body_at};

use crate::authorization;
use crate::command::Command;
use std::alloc::Global;
use tpol_base::{CommandCode, Cursor};
use tpol_fields::{HandleType, WireFault, fields};

/// Reads the handles and the authorization.
pub(crate) fn read(alloc: Global, tagged: bool, cursor: &mut Cursor) -> Result<Command, WireFault>
    ensures { Reads result (body_at CommandCode.PolicyAuthorizeNv tagged cursor.old) cursor.new }
{
    let authority = fields::handle(cursor, 1, HandleType::Authority)?;
    let index = fields::handle(cursor, 2, HandleType::Index)?;
    let session = fields::handle(cursor, 3, HandleType::PolicySession)?;
    let auth = authorization::read(alloc, tagged, cursor)?;
    Ok(Command::PolicyAuthorizeNv {
        authority,
        index,
        session,
        auth,
    })
}
