//! The parameters that TPM2_PolicyNV and TPM2_PolicyCounterTimer have in common: operandB, offset and
//! operation (TPM 2.0 Part 3).

ghost use Rattle.tpol_base.specs.ResponseCode.{of_parameter};
ghost use Rattle.tpol_fields.specs.Answers.{ReadsAs};
ghost use Rattle.tpol_wire.specs.Commands.{spell_values};
ghost use Rattle.tpol_wire.specs.Reading.{values_at};
ghost use Rattle.tpol_wire.specs.Rows.{comparison};
ghost use Rattle.tpol_fields.specs.Spellings.{Appends};

use std::alloc::Global;
use tpol_base::{Blob, Compare, Cursor, NoMemory};
use tpol_fields::{WireFault, fields, spelling};

/// Reads them as the parameters 1 to 3: an operand of at most 64 bytes, the offset, and an operation (TPM_EO).
pub(crate) fn read(alloc: Global, cursor: &mut Cursor) -> Result<(Blob, u16, Compare), WireFault>
    ensures { ReadsAs (λ found. (found.0, (found.1, (found.2, tt)))) result
        (values_at (of_parameter 1) comparison cursor.old) cursor.new }
{
    let operand = fields::copied_buffer(alloc, cursor, 1, 64)?;
    let offset = fields::number16(cursor, 2)?;
    let operation = fields::operation(cursor, 3)?;
    Ok((operand, offset, operation))
}

/// Writes the operand, the offset and the operation.
pub(crate) fn write(
    out: &mut Blob,
    operand: &Blob,
    offset: u16,
    operation: Compare,
) -> Result<(), NoMemory>
    ensures { Appends result out.old out.new
        (spell_values comparison (operand.now, (offset, (operation, tt)))) }
{
    spelling::sized(out, operand.as_slice())?;
    spelling::number16(out, offset)?;
    spelling::operation(out, operation)
}
