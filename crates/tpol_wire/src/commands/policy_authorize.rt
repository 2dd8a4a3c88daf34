//! TPM2_PolicyAuthorize (TPM 2.0 Part 3).

ghost use Rattle.tpol_fields.specs.Answers.{Reads};
ghost use Rattle.tpol_wire.specs.Commands.{spell_values};
ghost use Rattle.tpol_wire.specs.Reading.{body_at};
ghost use Rattle.tpol_wire.specs.Rows.{row};
ghost use Rattle.tpol_fields.specs.Spellings.{Appends};

use crate::command::Command;
use crate::commands::{session, ticketed};
use std::alloc::Global;
use tpol_base::{Blob, CommandCode, Cursor, Digest32, Name, NoMemory};
use tpol_fields::{Ticket, WireFault, fields, spelling};

/// Reads the handle and the parameters: an approvedPolicy of 32 bytes, and those of `ticketed`.
pub(crate) fn read(alloc: Global, tagged: bool, cursor: &mut Cursor) -> Result<Command, WireFault>
    ensures { Reads result (body_at CommandCode.PolicyAuthorize tagged cursor.old) cursor.new }
{
    let session = session::read(tagged, cursor)?;
    let approved = fields::sized_digest(cursor, 1)?;
    let (policy_ref, key, ticket) = ticketed::read(alloc, cursor, 2)?;
    Ok(Command::PolicyAuthorize {
        session,
        approved,
        policy_ref,
        key,
        ticket,
    })
}

/// Writes the parameters.
pub(crate) fn write(
    out: &mut Blob,
    approved: &Digest32,
    policy_ref: &Blob,
    key: &Name,
    ticket: &Ticket,
) -> Result<(), NoMemory>
    ensures { Appends result out.old out.new
        (spell_values (row CommandCode.PolicyAuthorize).parameters
        (approved.now, (policy_ref.now, (key.now, (ticket.now, tt))))) }
{
    spelling::sized_digest(out, approved)?;
    ticketed::write(out, policy_ref, key, ticket)
}
