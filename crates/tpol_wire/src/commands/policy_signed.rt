//! TPM2_PolicySigned (TPM 2.0 Part 3).

ghost use Rattle.tpol_fields.specs.Answers.{Reads};
ghost use Rattle.tpol_wire.specs.Commands.{spell_values};
ghost use Rattle.tpol_wire.specs.Reading.{body_at, reply_at};
ghost use Rattle.tpol_wire.specs.Rows.{row};
ghost use Rattle.tpol_fields.specs.Spellings.{Appends};

use crate::authorization;
use crate::command::Command;
use crate::commands::assertion::{self, Assertion};
use crate::reply::Reply;
use std::alloc::Global;
use tpol_base::constants::TPM_ST_AUTH_SIGNED;
use tpol_base::{Blob, CommandCode, Cursor, Digest32, NoMemory};
use tpol_fields::{HandleType, Ticket, WireFault, fields, spelling};

/// Reads the handles and the parameters: those of `assertion`, and a signature by an HMAC with SHA-256.
pub(crate) fn read(alloc: Global, tagged: bool, cursor: &mut Cursor) -> Result<Command, WireFault>
    ensures { Reads result (body_at CommandCode.PolicySigned tagged cursor.old) cursor.new }
{
    let key = fields::handle(cursor, 1, HandleType::Object)?;
    let session = fields::handle(cursor, 2, HandleType::PolicySession)?;
    authorization::none(tagged)?;
    let Assertion {
        nonce,
        cp_hash,
        policy_ref,
        expiration,
    } = assertion::read(alloc, cursor)?;
    let signature = fields::signature(cursor, 5)?;
    Ok(Command::PolicySigned {
        key,
        session,
        nonce,
        cp_hash,
        policy_ref,
        expiration,
        signature,
    })
}

/// Writes the parameters.
pub(crate) fn write(
    out: &mut Blob,
    nonce: &Blob,
    cp_hash: &Option<Digest32>,
    policy_ref: &Blob,
    expiration: &i32,
    signature: &Digest32,
) -> Result<(), NoMemory>
    ensures { Appends result out.old out.new
        (spell_values (row CommandCode.PolicySigned).parameters
        (nonce.now, (cp_hash.now, (policy_ref.now, (expiration.now, (signature.now, tt)))))) }
{
    assertion::write(out, nonce, cp_hash, policy_ref, expiration)?;
    spelling::signature(out, signature)
}

/// Reads the fields of the reply: a deadline or none, and the ticket that goes with it.
pub(crate) fn read_reply(alloc: Global, cursor: &mut Cursor) -> Result<Reply, WireFault>
    ensures { Reads result (reply_at CommandCode.PolicySigned cursor.old) cursor.new }
{
    let (timeout, ticket) = fields::timed_ticket(alloc, cursor, 1, TPM_ST_AUTH_SIGNED)?;
    Ok(Reply::PolicySigned { timeout, ticket })
}

/// Writes the fields of the reply.
pub(crate) fn write_reply(
    out: &mut Blob,
    timeout: Option<u64>,
    ticket: &Ticket,
) -> Result<(), NoMemory>
    ensures { Appends result out.old out.new
        (spell_values (row CommandCode.PolicySigned).reply ((timeout, ticket.now), tt)) }
{
    spelling::timed_ticket(out, timeout, ticket)
}
