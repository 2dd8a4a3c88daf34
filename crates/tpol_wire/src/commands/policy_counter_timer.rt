//! TPM2_PolicyCounterTimer (TPM 2.0 Part 3).

ghost use Rattle.tpol_fields.specs.Answers.{Reads};
ghost use Rattle.tpol_wire.specs.Reading.{body_at};

use crate::command::Command;
pub(crate) use crate::commands::comparison::write;
use crate::commands::{comparison, session};
use std::alloc::Global;
use tpol_base::{CommandCode, Cursor};
use tpol_fields::WireFault;

/// Reads the handle and the parameters, those of `comparison`.
pub(crate) fn read(alloc: Global, tagged: bool, cursor: &mut Cursor) -> Result<Command, WireFault>
    ensures { Reads result (body_at CommandCode.PolicyCounterTimer tagged cursor.old) cursor.new }
{
    let session = session::read(tagged, cursor)?;
    let (operand, offset, operation) = comparison::read(alloc, cursor)?;
    Ok(Command::PolicyCounterTimer {
        session,
        operand,
        offset,
        operation,
    })
}
