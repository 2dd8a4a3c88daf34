//! The last parameters of TPM2_PolicyTicket and TPM2_PolicyAuthorize: policyRef, the Name of the key that signed or of
//! the entity that authorized, and the ticket (TPM 2.0 Part 3).

ghost use Rattle.std.specs.Prelude.{◌≤◌};
ghost use Rattle.tpol_base.specs.ResponseCode.{of_parameter};
ghost use Rattle.tpol_fields.specs.Answers.{ReadsAs};
ghost use Rattle.tpol_wire.specs.Commands.{spell_values};
ghost use Rattle.tpol_wire.specs.Reading.{values_at};
ghost use Rattle.tpol_wire.specs.Rows.{ticketed};
ghost use Rattle.tpol_fields.specs.Spellings.{Appends};

use std::alloc::Global;
use tpol_base::{Blob, Cursor, Name, NoMemory};
use tpol_fields::{Ticket, WireFault, fields, spelling};

/// Reads them as the parameters `n`, `n + 1` and `n + 2`; the policyRef has at most 64 bytes.
pub(crate) fn read(
    alloc: Global,
    cursor: &mut Cursor,
    n: u8,
) -> Result<(Blob, Name, Ticket), WireFault>
    requires { n ≤ 3 }
    ensures { ReadsAs (λ found. (found.0, (found.1, (found.2, tt)))) result
        (values_at (of_parameter n) ticketed cursor.old) cursor.new }
{
    let policy_ref = fields::copied_buffer(alloc, cursor, n, 64)?;
    let key = fields::name(cursor, n + 1)?;
    let ticket = fields::ticket(alloc, cursor, n + 2)?;
    Ok((policy_ref, key, ticket))
}

/// Writes them.
pub(crate) fn write(
    out: &mut Blob,
    policy_ref: &Blob,
    key: &Name,
    ticket: &Ticket,
) -> Result<(), NoMemory>
    ensures { Appends result out.old out.new
        (spell_values ticketed (policy_ref.now, (key.now, (ticket.now, tt)))) }
{
    spelling::sized(out, policy_ref.as_slice())?;
    spelling::name(out, key)?;
    spelling::ticket(out, ticket)
}
