//! Bytes as a reply.

ghost use Rattle.std.specs.Prelude.{◌≡◌, true, false, IfOk, Option, Some};
ghost use Rattle.tpol_base.specs.CommandCode.{code_of_number};
ghost use Rattle.tpol_fields.specs.Answers.{Reads};
ghost use Rattle.tpol_wire.specs.Answers.{GivesReply};
ghost use Rattle.tpol_wire.specs.Reading.{reply_at};
ghost use Rattle.tpol_wire.specs.Replies.{SpellsReply, refusal_tag};
ghost use Rattle.tpol_wire.specs.declared.auth_area.ReplyAuth.{ReplyAuth as AuthOf};
ghost use Rattle.tpol_wire.specs.declared.reply.Reply.{Reply as ReplyOf};
ghost use Rattle.tpol_wire.specs.ReplyReading.{all_fields_of, answer_of, refusal_of, reply_auth_of, reply_reading, served_at};

use crate::auth_area::ReplyAuth;
use crate::authorization::read_tail;
use crate::commands::{
    context_load, context_save, duplicate, hmac, nv_read, pcr_read, policy_get_digest,
    policy_secret, policy_signed, start_auth_session, unseal, verify_signature,
};
use crate::fault::ReplyFault;
use crate::reply::Reply;
use crate::table;
use std::alloc::Global;
use tpol_base::constants::{TPM_ST_NO_SESSIONS, TPM_ST_RSP_COMMAND};
use tpol_base::response_code::BAD_TAG;
use tpol_base::{Blob, CommandCode, Cursor, Rc};
use tpol_fields::WireFault;

/// The fields of a reply to this command.
fn reply_fields(alloc: Global, code: CommandCode, cursor: &mut Cursor) -> Result<Reply, WireFault>
    ensures { Reads result (reply_at code cursor.old) cursor.new }
{
    match code {
        CommandCode::StartAuthSession => start_auth_session::read_reply(cursor),
        CommandCode::ContextSave => context_save::read_reply(cursor),
        CommandCode::ContextLoad => context_load::read_reply(cursor),
        CommandCode::FlushContext => Ok(Reply::FlushContext),
        CommandCode::PolicyRestart => Ok(Reply::PolicyRestart),
        CommandCode::PolicyGetDigest => policy_get_digest::read_reply(cursor),
        CommandCode::PcrExtend => Ok(Reply::PcrExtend),
        CommandCode::PcrRead => pcr_read::read_reply(alloc, cursor),
        CommandCode::VerifySignature => verify_signature::read_reply(alloc, cursor),
        CommandCode::Unseal => unseal::read_reply(alloc, cursor),
        CommandCode::Hmac => hmac::read_reply(cursor),
        CommandCode::NvRead => nv_read::read_reply(alloc, cursor),
        CommandCode::NvWrite => Ok(Reply::NvWrite),
        CommandCode::NvIncrement => Ok(Reply::NvIncrement),
        CommandCode::Duplicate => duplicate::read_reply(alloc, cursor),
        CommandCode::PolicyNv => Ok(Reply::PolicyNv),
        CommandCode::PolicyCpHash => Ok(Reply::PolicyCpHash),
        CommandCode::PolicyNameHash => Ok(Reply::PolicyNameHash),
        CommandCode::PolicyAuthValue => Ok(Reply::PolicyAuthValue),
        CommandCode::PolicyPassword => Ok(Reply::PolicyPassword),
        CommandCode::PolicyPhysicalPresence => Ok(Reply::PolicyPhysicalPresence),
        CommandCode::PolicyCommandCode => Ok(Reply::PolicyCommandCode),
        CommandCode::PolicyCounterTimer => Ok(Reply::PolicyCounterTimer),
        CommandCode::PolicyLocality => Ok(Reply::PolicyLocality),
        CommandCode::PolicyPcr => Ok(Reply::PolicyPcr),
        CommandCode::PolicyDuplicationSelect => Ok(Reply::PolicyDuplicationSelect),
        CommandCode::PolicyNvWritten => Ok(Reply::PolicyNvWritten),
        CommandCode::PolicySigned => policy_signed::read_reply(alloc, cursor),
        CommandCode::PolicySecret => policy_secret::read_reply(alloc, cursor),
        CommandCode::PolicyTicket => Ok(Reply::PolicyTicket),
        CommandCode::PolicyAuthorize => Ok(Reply::PolicyAuthorize),
        CommandCode::PolicyOr => Ok(Reply::PolicyOr),
        CommandCode::PolicyAuthorizeNv => Ok(Reply::PolicyAuthorizeNv),
    }
}

/// The fields of a reply, and nothing behind them.
#[tactic(auto, unfolding(crate::specs::ReplyReading::all_fields_of))]
fn all_fields(alloc: Global, code: CommandCode, cursor: &mut Cursor) -> Result<Reply, ReplyFault>
    ensures { GivesReply result (all_fields_of code cursor.old) }
{
    match reply_fields(alloc, code, cursor) {
        Ok(reply) => {
            if cursor.left() == 0 {
                return Ok(reply);
            }
            drop(reply);
            Err(ReplyFault::Malformed)
        }
        Err(WireFault::Refused(_)) => Err(ReplyFault::Malformed),
        Err(WireFault::NoMemory) => Err(ReplyFault::NoMemory),
    }
}

/// Exactly one authorization within its bounds.
#[tactic(auto, unfolding(crate::specs::ReplyReading::reply_auth_of))]
fn reply_auth(alloc: Global, cursor: &mut Cursor) -> Result<ReplyAuth, ReplyFault>
    ensures { GivesReply result (reply_auth_of cursor.old) }
{
    let Some(tail) = read_tail(cursor) else {
        return Err(ReplyFault::Malformed);
    };
    if tail.nonce.len() > 32 || tail.hmac.len() > 64 {
        return Err(ReplyFault::Malformed);
    }
    Ok(ReplyAuth {
        nonce: Blob::from_slice(alloc, tail.nonce)?,
        attributes: tail.attributes,
        hmac: Blob::from_slice(alloc, tail.hmac)?,
    })
}

/// A reply to a command without an authorization: its fields.
#[tactic(auto, unfolding(crate::specs::ReplyReading::served_at))]
fn plain(
    alloc: Global,
    code: CommandCode,
    cursor: &mut Cursor,
) -> Result<(Reply, Option<ReplyAuth>), ReplyFault>
    ensures { GivesReply result (served_at code false cursor.old) }
{
    let reply = all_fields(alloc, code, cursor)?;
    Ok((reply, None))
}

/// A reply to an authorized command: the size of the fields, the fields, and the authorization.
#[tactic(auto, unfolding(crate::specs::ReplyReading::served_at))]
fn authorized(
    alloc: Global,
    code: CommandCode,
    cursor: &mut Cursor,
) -> Result<(Reply, Option<ReplyAuth>), ReplyFault>
    ensures { GivesReply result (served_at code true cursor.old) }
{
    let Some(size) = cursor.u32() else {
        return Err(ReplyFault::Malformed);
    };
    let Some(fields) = cursor.take(size as usize) else {
        return Err(ReplyFault::Malformed);
    };
    let reply = all_fields(alloc, code, &mut Cursor::new(fields))?;
    match reply_auth(alloc, cursor) {
        Ok(auth) => Ok((reply, Some(auth))),
        Err(fault) => {
            drop(reply);
            Err(fault)
        }
    }
}

/// The tag of a refusal with this code: that of TPM 1.2, TPM_ST_RSP_COMMAND (0x00c4), where the command's tag was
/// refused, else TPM_ST_NO_SESSIONS (0x8001) (TPM 2.0 Part 2, TPM_ST).
pub fn refusal_tag(code: u32) -> u16
    ensures tag { result ≡ refusal_tag code }
{
    if code == BAD_TAG {
        TPM_ST_RSP_COMMAND
    } else {
        TPM_ST_NO_SESSIONS
    }
}

/// A refusal with this code, and nothing behind it.
#[tactic(auto, unfolding(crate::specs::ReplyReading::refusal_of))]
fn refusal(tag: u16, code: u32, cursor: &Cursor) -> Result<(Reply, Option<ReplyAuth>), ReplyFault>
    ensures { GivesReply result (refusal_of tag code cursor.now) }
{
    if tag != refusal_tag(code) || cursor.left() != 0 {
        return Err(ReplyFault::Malformed);
    }
    Ok((Reply::Refused(Rc { code }), None))
}

/// A reply with the code 0 to this command.
#[tactic(auto, unfolding(crate::specs::ReplyReading::answer_of))]
fn answer(
    alloc: Global,
    code: u32,
    tag: u16,
    cursor: &mut Cursor,
) -> Result<(Reply, Option<ReplyAuth>), ReplyFault>
    ensures { GivesReply result (answer_of (code_of_number code) tag cursor.old) }
{
    let Some(command) = CommandCode::from_number(code) else {
        return Err(ReplyFault::Malformed);
    };
    if tag != table::tag_of(command) {
        return Err(ReplyFault::Malformed);
    }
    if table::is_authorized(command) {
        authorized(alloc, command, cursor)
    } else {
        plain(alloc, command, cursor)
    }
}

#[tactic(auto, unfolding(crate::specs::ReplyReading::reply_reading))]
fn whole(alloc: Global, code: u32, bytes: &[u8]) -> Result<(Reply, Option<ReplyAuth>), ReplyFault>
    ensures { GivesReply result (reply_reading code bytes.now) }
{
    let mut cursor = Cursor::new(bytes);
    let Some(tag) = cursor.u16() else {
        return Err(ReplyFault::Malformed);
    };
    let Some(size) = cursor.u32() else {
        return Err(ReplyFault::Malformed);
    };
    let Some(found) = cursor.u32() else {
        return Err(ReplyFault::Malformed);
    };
    if size as usize != bytes.len() {
        return Err(ReplyFault::Malformed);
    }
    if found == 0 {
        answer(alloc, code, tag, &mut cursor)
    } else {
        refusal(tag, found, &cursor)
    }
}

/// The reply that the bytes are to a command of this code, with its authorization where the command has one
/// (TPM 2.0 Part 1, "Response Structure"). A refusal is a reply to any code.
///
/// `Malformed` comes exactly where the bytes are no reply to that code.
pub fn read_reply(
    alloc: Global,
    code: u32,
    bytes: &[u8],
) -> Result<(Reply, Option<ReplyAuth>), ReplyFault>
    // The answer is a function of the code and the bytes.
    ensures reading { GivesReply result (reply_reading code bytes.now) }
    // The bytes are this reply to that code,
    ensures found { IfOk result (λ found. SpellsReply code bytes.now found.0 found.1) }
    // and no other; what is a reply is read, unless memory runs out.
    ensures only { (reply : ReplyOf) (auth : Option AuthOf) → SpellsReply code bytes.now reply auth
        → GivesReply result (Some (reply, auth)) }
{
    whole(alloc, code, bytes)
}
