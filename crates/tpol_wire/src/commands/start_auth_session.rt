//! TPM2_StartAuthSession (TPM 2.0 Part 3).

ghost use Rattle.tpol_fields.specs.Answers.{Reads};
ghost use Rattle.tpol_wire.specs.Commands.{spell_values};
ghost use Rattle.tpol_wire.specs.Reading.{body_at, reply_at};
ghost use Rattle.tpol_wire.specs.Rows.{row};
ghost use Rattle.tpol_fields.specs.Spellings.{Appends};

use crate::authorization;
use crate::command::Command;
use crate::reply::Reply;
use tpol_base::constants::{TPM_ALG_NULL, TPM_ALG_SHA256, TPM_SE_POLICY};
use tpol_base::response_code::{HASH, VALUE};
use tpol_base::{Blob, CommandCode, Cursor, Digest32, NoMemory};
use tpol_fields::{HandleType, WireFault, fields, spelling};

/// Reads the handles, both TPM_RH_NULL, and the parameters: a nonceCaller of 32 bytes, no encryptedSalt, and what is
/// fixed: TPM_SE_POLICY and TPM_ALG_NULL (else TPM_RC_VALUE), and TPM_ALG_SHA256 (else TPM_RC_HASH).
pub(crate) fn read(tagged: bool, cursor: &mut Cursor) -> Result<Command, WireFault>
    ensures { Reads result (body_at CommandCode.StartAuthSession tagged cursor.old) cursor.new }
{
    let tpm_key = fields::handle(cursor, 1, HandleType::Null)?;
    let bind = fields::handle(cursor, 2, HandleType::Null)?;
    authorization::none(tagged)?;
    let nonce = fields::sized_digest(cursor, 1)?;
    fields::empty(cursor, 2)?;
    fields::fixed_byte(cursor, 3, TPM_SE_POLICY, VALUE)?;
    fields::fixed(cursor, 4, TPM_ALG_NULL, VALUE)?;
    fields::fixed(cursor, 5, TPM_ALG_SHA256, HASH)?;
    Ok(Command::StartAuthSession {
        tpm_key,
        bind,
        nonce,
    })
}

/// Writes the parameters.
pub(crate) fn write(out: &mut Blob, nonce: &Digest32) -> Result<(), NoMemory>
    ensures { Appends result out.old out.new
        (spell_values (row CommandCode.StartAuthSession).parameters
        (nonce.now, (tt, (tt, (tt, (tt, tt)))))) }
{
    spelling::sized_digest(out, nonce)?;
    spelling::number16(out, 0)?;
    spelling::byte(out, TPM_SE_POLICY)?;
    spelling::number16(out, TPM_ALG_NULL)?;
    spelling::number16(out, TPM_ALG_SHA256)
}

/// Reads the fields of the reply.
pub(crate) fn read_reply(cursor: &mut Cursor) -> Result<Reply, WireFault>
    ensures { Reads result (reply_at CommandCode.StartAuthSession cursor.old) cursor.new }
{
    let session = fields::handle_parameter(cursor, 1, HandleType::PolicySession)?;
    let nonce = fields::sized_digest(cursor, 2)?;
    Ok(Reply::StartAuthSession { session, nonce })
}

/// Writes the fields of the reply.
pub(crate) fn write_reply(out: &mut Blob, session: u32, nonce: &Digest32) -> Result<(), NoMemory>
    ensures { Appends result out.old out.new
        (spell_values (row CommandCode.StartAuthSession).reply (session, (nonce.now, tt))) }
{
    spelling::number32(out, session)?;
    spelling::sized_digest(out, nonce)
}
