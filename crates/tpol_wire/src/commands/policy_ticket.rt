//! TPM2_PolicyTicket (TPM 2.0 Part 3).

ghost use Rattle.tpol_fields.specs.Answers.{Reads};
ghost use Rattle.tpol_wire.specs.Commands.{spell_values};
ghost use Rattle.tpol_wire.specs.Reading.{body_at};
ghost use Rattle.tpol_wire.specs.Rows.{row};
ghost use Rattle.tpol_fields.specs.Spellings.{Appends};

use crate::command::Command;
use crate::commands::{session, ticketed};
use std::alloc::Global;
use tpol_base::{Blob, CommandCode, Cursor, Digest32, Name, NoMemory};
use tpol_fields::{Ticket, WireFault, fields, spelling};

/// Reads the handle and the parameters: a timeout of 8 bytes, a cpHashA of 0 or 32, and those of `ticketed`.
pub(crate) fn read(alloc: Global, tagged: bool, cursor: &mut Cursor) -> Result<Command, WireFault>
    ensures { Reads result (body_at CommandCode.PolicyTicket tagged cursor.old) cursor.new }
{
    let session = session::read(tagged, cursor)?;
    let timeout = fields::timeout(cursor, 1)?;
    let cp_hash = fields::optional(cursor, 2)?;
    let (policy_ref, key, ticket) = ticketed::read(alloc, cursor, 3)?;
    Ok(Command::PolicyTicket {
        session,
        timeout,
        cp_hash,
        policy_ref,
        key,
        ticket,
    })
}

/// Writes the parameters.
pub(crate) fn write(
    out: &mut Blob,
    timeout: u64,
    cp_hash: &Option<Digest32>,
    policy_ref: &Blob,
    key: &Name,
    ticket: &Ticket,
) -> Result<(), NoMemory>
    ensures { Appends result out.old out.new
        (spell_values (row CommandCode.PolicyTicket).parameters
        (timeout, (cp_hash.now, (policy_ref.now, (key.now, (ticket.now, tt)))))) }
{
    spelling::timeout(out, timeout)?;
    spelling::optional(out, cp_hash)?;
    ticketed::write(out, policy_ref, key, ticket)
}
