//! TPM2_PolicySecret (TPM 2.0 Part 3).

ghost use Rattle.tpol_fields.specs.Answers.{Reads};
ghost use Rattle.tpol_wire.specs.Commands.{spell_values};
ghost use Rattle.tpol_wire.specs.Reading.{body_at, reply_at};
ghost use Rattle.tpol_wire.specs.Rows.{row};
ghost use Rattle.tpol_fields.specs.Spellings.{Appends};

use crate::authorization;
use crate::command::Command;
pub(crate) use crate::commands::assertion::write;
use crate::commands::assertion::{self, Assertion};
use crate::reply::Reply;
use std::alloc::Global;
use tpol_base::constants::TPM_ST_AUTH_SECRET;
use tpol_base::{Blob, CommandCode, Cursor, NoMemory};
use tpol_fields::{HandleType, Ticket, WireFault, fields, spelling};

/// Reads the handles, the authorization and the parameters, those of `assertion`.
pub(crate) fn read(alloc: Global, tagged: bool, cursor: &mut Cursor) -> Result<Command, WireFault>
    ensures { Reads result (body_at CommandCode.PolicySecret tagged cursor.old) cursor.new }
{
    let entity = fields::handle(cursor, 1, HandleType::Entity)?;
    let session = fields::handle(cursor, 2, HandleType::PolicySession)?;
    let auth = authorization::read(alloc, tagged, cursor)?;
    let Assertion {
        nonce,
        cp_hash,
        policy_ref,
        expiration,
    } = assertion::read(alloc, cursor)?;
    Ok(Command::PolicySecret {
        entity,
        session,
        auth,
        nonce,
        cp_hash,
        policy_ref,
        expiration,
    })
}

/// Reads the fields of the reply: a deadline or none, and the ticket that goes with it.
pub(crate) fn read_reply(alloc: Global, cursor: &mut Cursor) -> Result<Reply, WireFault>
    ensures { Reads result (reply_at CommandCode.PolicySecret cursor.old) cursor.new }
{
    let (timeout, ticket) = fields::timed_ticket(alloc, cursor, 1, TPM_ST_AUTH_SECRET)?;
    Ok(Reply::PolicySecret { timeout, ticket })
}

/// Writes the fields of the reply.
pub(crate) fn write_reply(
    out: &mut Blob,
    timeout: Option<u64>,
    ticket: &Ticket,
) -> Result<(), NoMemory>
    ensures { Appends result out.old out.new
        (spell_values (row CommandCode.PolicySecret).reply ((timeout, ticket.now), tt)) }
{
    spelling::timed_ticket(out, timeout, ticket)
}
