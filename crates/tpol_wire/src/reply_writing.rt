//! Replies as bytes (TPM 2.0 Part 1, "Response Structure"). Writing fails only where memory ran out.

ghost use Rattle.std.specs.Prelude.{◌≡◌, ℕ, IfOk, option_copied};
ghost use Rattle.tpol_wire.specs.Replies.{FitsReply, PartsAnswer, SpellsReply, answered_by, parts_of, reply_body, reply_fields_of, spell_reply};
ghost use Rattle.tpol_fields.specs.Spellings.{Appends};

use crate::auth_area::ReplyAuth;
use crate::commands::{
    context_load, context_save, duplicate, hmac, nv_read, pcr_read, policy_get_digest,
    policy_secret, policy_signed, start_auth_session, unseal, verify_signature,
};
use crate::reply::Reply;
use crate::reply_reading::refusal_tag;
use crate::{authorization, message, table};
use std::alloc::Global;
use tpol_base::{Blob, CommandCode, NoMemory, Rc};
use tpol_fields::spelling;

/// The fields of a reply; most have none.
fn fields(out: &mut Blob, reply: &Reply) -> Result<(), NoMemory>
    ensures { Appends result out.old out.new (reply_fields_of reply.now) }
{
    match reply {
        Reply::StartAuthSession { session, nonce } => start_auth_session::write_reply(
            out, *session, nonce,
        ),
        Reply::ContextSave {
            sequence,
            session,
            digest,
        } => context_save::write_reply(out, *sequence, *session, digest),
        Reply::ContextLoad { session } => context_load::write_reply(out, *session),
        Reply::PolicyGetDigest { digest } => policy_get_digest::write_reply(out, digest),
        Reply::PcrRead {
            counter,
            mask,
            digests,
        } => pcr_read::write_reply(out, *counter, *mask, digests),
        Reply::VerifySignature { ticket } => verify_signature::write_reply(out, ticket),
        Reply::Unseal { bytes } => unseal::write_reply(out, bytes),
        Reply::Hmac { digest } => hmac::write_reply(out, digest),
        Reply::NvRead { bytes } => nv_read::write_reply(out, bytes),
        Reply::Duplicate { bytes } => duplicate::write_reply(out, bytes),
        Reply::PolicySigned { timeout, ticket } => policy_signed::write_reply(
            out, *timeout, ticket,
        ),
        Reply::PolicySecret { timeout, ticket } => policy_secret::write_reply(
            out, *timeout, ticket,
        ),
        _ => Ok(()),
    }
}

/// The command that the reply answers, or the code of a refusal, which answers any.
fn answered(reply: &Reply) -> Result<CommandCode, Rc>
    ensures { result ≡ answered_by (parts_of reply.now) }
{
    match reply {
        Reply::StartAuthSession { .. } => Ok(CommandCode::StartAuthSession),
        Reply::ContextSave { .. } => Ok(CommandCode::ContextSave),
        Reply::ContextLoad { .. } => Ok(CommandCode::ContextLoad),
        Reply::FlushContext => Ok(CommandCode::FlushContext),
        Reply::PolicyRestart => Ok(CommandCode::PolicyRestart),
        Reply::PolicyGetDigest { .. } => Ok(CommandCode::PolicyGetDigest),
        Reply::PcrExtend => Ok(CommandCode::PcrExtend),
        Reply::PcrRead { .. } => Ok(CommandCode::PcrRead),
        Reply::VerifySignature { .. } => Ok(CommandCode::VerifySignature),
        Reply::Unseal { .. } => Ok(CommandCode::Unseal),
        Reply::Hmac { .. } => Ok(CommandCode::Hmac),
        Reply::NvRead { .. } => Ok(CommandCode::NvRead),
        Reply::NvWrite => Ok(CommandCode::NvWrite),
        Reply::NvIncrement => Ok(CommandCode::NvIncrement),
        Reply::Duplicate { .. } => Ok(CommandCode::Duplicate),
        Reply::PolicyNv => Ok(CommandCode::PolicyNv),
        Reply::PolicyCpHash => Ok(CommandCode::PolicyCpHash),
        Reply::PolicyNameHash => Ok(CommandCode::PolicyNameHash),
        Reply::PolicyAuthValue => Ok(CommandCode::PolicyAuthValue),
        Reply::PolicyPassword => Ok(CommandCode::PolicyPassword),
        Reply::PolicyPhysicalPresence => Ok(CommandCode::PolicyPhysicalPresence),
        Reply::PolicyCommandCode => Ok(CommandCode::PolicyCommandCode),
        Reply::PolicyCounterTimer => Ok(CommandCode::PolicyCounterTimer),
        Reply::PolicyLocality => Ok(CommandCode::PolicyLocality),
        Reply::PolicyPcr => Ok(CommandCode::PolicyPcr),
        Reply::PolicyDuplicationSelect => Ok(CommandCode::PolicyDuplicationSelect),
        Reply::PolicyNvWritten => Ok(CommandCode::PolicyNvWritten),
        Reply::PolicySigned { .. } => Ok(CommandCode::PolicySigned),
        Reply::PolicySecret { .. } => Ok(CommandCode::PolicySecret),
        Reply::PolicyTicket => Ok(CommandCode::PolicyTicket),
        Reply::PolicyAuthorize => Ok(CommandCode::PolicyAuthorize),
        Reply::PolicyOr => Ok(CommandCode::PolicyOr),
        Reply::PolicyAuthorizeNv => Ok(CommandCode::PolicyAuthorizeNv),
        Reply::Refused(rc) => Err(*rc),
    }
}

/// The bytes of a reply's fields alone: no size stands before them and no authorization behind. A refusal has
/// none.
pub fn fields_of(alloc: Global, reply: &Reply) -> Result<Blob, NoMemory>
    ensures { IfOk result (λ bytes. bytes ≡ reply_fields_of reply.now) }
{
    let mut out = Blob::new(alloc);
    fields(&mut out, reply)?;
    Ok(out)
}

/// The fields of a reply; with an authorization their size before them and the authorization behind.
fn body(
    alloc: Global,
    out: &mut Blob,
    reply: &Reply,
    auth: Option<&ReplyAuth>,
) -> Result<(), NoMemory>
    ensures { Appends result out.old out.new
        (reply_body (reply_fields_of reply.now) (option_copied auth.entry)) }
{
    match auth {
        None => fields(out, reply),
        Some(auth) => authorized(out, &fields_of(alloc, reply)?, auth),
    }
}

/// The size of the fields, the fields and the authorization.
fn authorized(out: &mut Blob, fields: &Blob, auth: &ReplyAuth) -> Result<(), NoMemory>
    ensures { Appends result out.old out.new (reply_body fields.now (Some auth.now)) }
{
    spelling::length32(out, fields.len())?;
    out.extend_from_slice(fields.as_slice())?;
    authorization::write_tail(out, &auth.nonce, auth.attributes, &auth.hmac)
}

/// The one spelling of a reply with its authorization, where there is one (TPM 2.0 Part 1, "Response Structure").
/// A reply whose fields are within their bounds, with an authorization exactly where its command has one, is read
/// again as a reply to that command; a refusal without one, whose code is not 0, as a reply to any.
pub fn write_reply(alloc: Global, reply: &Reply, auth: Option<&ReplyAuth>) -> Result<Blob, NoMemory>
    ensures spelling { IfOk result (λ bytes. bytes
        ≡ spell_reply reply.now (option_copied auth.entry)) }
    ensures spells { (code : ℕ) → FitsReply reply.now (option_copied auth.entry)
        → PartsAnswer code (parts_of reply.now)
        → IfOk result (λ bytes. SpellsReply code bytes reply.now (option_copied auth.entry)) }
{
    let mut message = message::begin(alloc)?;
    match answered(reply) {
        Ok(command) => {
            body(alloc, &mut message, reply, auth)?;
            Ok(message::finish(message, table::tag_of(command), 0))
        }
        Err(rc) => Ok(message::finish(message, refusal_tag(rc.code), rc.code)),
    }
}
