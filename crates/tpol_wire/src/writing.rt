//! Commands as bytes (TPM 2.0 Part 1, "Command Structure"). Writing fails only where memory ran out.

ghost use Rattle.std.specs.Prelude.{◌≡◌, IfOk, false};
ghost use Rattle.tpol_base.specs.CommandCode.{number_of_code};
ghost use Rattle.tpol_wire.specs.Commands.{code_of_command, FitsCommand, is_assertion, spelling as spelled, Spells, spell_front, spell_parameters};
ghost use Rattle.tpol_wire.specs.Handles.{handles_of};
ghost use Rattle.tpol_fields.specs.Spellings.{Appends};
ghost use Rattle.tpol_wire.specs.Spellings.{spell_handles};

use crate::command::Command;
use crate::commands::{
    context_load, duplicate, flush_context, hmac, nv_read, nv_write, pcr_extend, pcr_read,
    policy_authorize, policy_command_code, policy_counter_timer, policy_cp_hash,
    policy_duplication_select, policy_locality, policy_name_hash, policy_nv, policy_nv_written,
    policy_or, policy_pcr, policy_secret, policy_signed, policy_ticket, start_auth_session,
    verify_signature,
};
use crate::{authorization, message, table};
use std::alloc::Global;
use tpol_base::{Blob, CommandCode, NoMemory};
use tpol_fields::spelling;

/// Which command it is.
fn command_code(command: &Command) -> CommandCode
    ensures { result ≡ code_of_command command.now }
{
    match command {
        Command::StartAuthSession { .. } => CommandCode::StartAuthSession,
        Command::ContextSave { .. } => CommandCode::ContextSave,
        Command::ContextLoad { .. } => CommandCode::ContextLoad,
        Command::FlushContext { .. } => CommandCode::FlushContext,
        Command::PolicyRestart { .. } => CommandCode::PolicyRestart,
        Command::PolicyGetDigest { .. } => CommandCode::PolicyGetDigest,
        Command::PcrExtend { .. } => CommandCode::PcrExtend,
        Command::PcrRead { .. } => CommandCode::PcrRead,
        Command::VerifySignature { .. } => CommandCode::VerifySignature,
        Command::Unseal { .. } => CommandCode::Unseal,
        Command::Hmac { .. } => CommandCode::Hmac,
        Command::NvRead { .. } => CommandCode::NvRead,
        Command::NvWrite { .. } => CommandCode::NvWrite,
        Command::NvIncrement { .. } => CommandCode::NvIncrement,
        Command::Duplicate { .. } => CommandCode::Duplicate,
        Command::PolicyNv { .. } => CommandCode::PolicyNv,
        Command::PolicyCpHash { .. } => CommandCode::PolicyCpHash,
        Command::PolicyNameHash { .. } => CommandCode::PolicyNameHash,
        Command::PolicyAuthValue { .. } => CommandCode::PolicyAuthValue,
        Command::PolicyPassword { .. } => CommandCode::PolicyPassword,
        Command::PolicyPhysicalPresence { .. } => CommandCode::PolicyPhysicalPresence,
        Command::PolicyCommandCode { .. } => CommandCode::PolicyCommandCode,
        Command::PolicyCounterTimer { .. } => CommandCode::PolicyCounterTimer,
        Command::PolicyLocality { .. } => CommandCode::PolicyLocality,
        Command::PolicyPcr { .. } => CommandCode::PolicyPcr,
        Command::PolicyDuplicationSelect { .. } => CommandCode::PolicyDuplicationSelect,
        Command::PolicyNvWritten { .. } => CommandCode::PolicyNvWritten,
        Command::PolicySigned { .. } => CommandCode::PolicySigned,
        Command::PolicySecret { .. } => CommandCode::PolicySecret,
        Command::PolicyTicket { .. } => CommandCode::PolicyTicket,
        Command::PolicyAuthorize { .. } => CommandCode::PolicyAuthorize,
        Command::PolicyOr { .. } => CommandCode::PolicyOr,
        Command::PolicyAuthorizeNv { .. } => CommandCode::PolicyAuthorizeNv,
    }
}

/// The command's code on the wire (TPM 2.0 Part 2, TPM_CC).
pub fn code_of(command: &Command) -> u32
    ensures { result ≡ number_of_code (code_of_command command.now) }
{
    command_code(command).number()
}

/// The handles of a command, and its authorization.
fn front(alloc: Global, out: &mut Blob, command: &Command) -> Result<(), NoMemory>
    ensures { Appends result out.old out.new (spell_front command.now) }
{
    handles(out, command)?;
    match command.area() {
        Some(area) => authorization::write_area(alloc, out, area),
        None => Ok(()),
    }
}

/// The handles of a command, one after the other.
fn handles(out: &mut Blob, command: &Command) -> Result<(), NoMemory>
    ensures { Appends result out.old out.new (spell_handles (handles_of command.now)) }
{
    let handles = command.handles();
    for handle in handles.as_slice() {
        spelling::number32(out, *handle)?;
    }
    Ok(())
}

/// The parameters of a command.
fn parameters(out: &mut Blob, command: &Command) -> Result<(), NoMemory>
    ensures { Appends result out.old out.new (spell_parameters command.now) }
{
    match command {
        Command::PolicySigned {
            nonce,
            cp_hash,
            policy_ref,
            expiration,
            signature,
            ..
        } => policy_signed::write(out, nonce, cp_hash, policy_ref, expiration, signature),
        Command::PolicySecret {
            nonce,
            cp_hash,
            policy_ref,
            expiration,
            ..
        } => policy_secret::write(out, nonce, cp_hash, policy_ref, expiration),
        Command::PolicyTicket {
            timeout,
            cp_hash,
            policy_ref,
            key,
            ticket,
            ..
        } => policy_ticket::write(out, *timeout, cp_hash, policy_ref, key, ticket),
        Command::PolicyAuthorize {
            approved,
            policy_ref,
            key,
            ticket,
            ..
        } => policy_authorize::write(out, approved, policy_ref, key, ticket),
        _ => other_parameters(out, command),
    }
}

/// The parameters of a command that asserts no authorization of a key or an entity.
fn other_parameters(out: &mut Blob, command: &Command) -> Result<(), NoMemory>
    requires { is_assertion (code_of_command command.now) ≡ false }
    ensures { Appends result out.old out.new (spell_parameters command.now) }
{
    match command {
        Command::StartAuthSession { nonce, .. } => start_auth_session::write(out, nonce),
        Command::ContextLoad {
            sequence,
            session,
            digest,
        } => context_load::write(out, *sequence, *session, digest),
        Command::FlushContext { session } => flush_context::write(out, *session),
        Command::PcrExtend { digest, .. } => pcr_extend::write(out, digest),
        Command::PcrRead { mask } => pcr_read::write(out, *mask),
        Command::VerifySignature {
            digest,
            signature,
            ..
        } => verify_signature::write(out, digest, signature),
        Command::Hmac { buffer, hash, .. } => hmac::write(out, buffer, *hash),
        Command::NvRead { size, offset, .. } => nv_read::write(out, *size, *offset),
        Command::NvWrite { bytes, offset, .. } => nv_write::write(out, bytes, *offset),
        Command::Duplicate { .. } => duplicate::write(out),
        Command::PolicyNv {
            operand,
            offset,
            operation,
            ..
        } => policy_nv::write(out, operand, *offset, *operation),
        Command::PolicyCpHash { digest, .. } => policy_cp_hash::write(out, digest),
        Command::PolicyNameHash { digest, .. } => policy_name_hash::write(out, digest),
        Command::PolicyCommandCode { code, .. } => policy_command_code::write(out, *code),
        Command::PolicyCounterTimer {
            operand,
            offset,
            operation,
            ..
        } => policy_counter_timer::write(out, operand, *offset, *operation),
        Command::PolicyLocality { locality, .. } => policy_locality::write(out, *locality),
        Command::PolicyPcr { given, mask, .. } => policy_pcr::write(out, given, *mask),
        Command::PolicyDuplicationSelect {
            object,
            parent,
            include,
            ..
        } => policy_duplication_select::write(out, object, parent, *include),
        Command::PolicyNvWritten { written, .. } => policy_nv_written::write(out, *written),
        Command::PolicyOr { digests, .. } => policy_or::write(out, digests),
        _ => Ok(()),
    }
}

/// The bytes of a command's parameters.
pub fn parameters_of(alloc: Global, command: &Command) -> Result<Blob, NoMemory>
    ensures { IfOk result (λ bytes. bytes ≡ spell_parameters command.now) }
{
    let mut out = Blob::new(alloc);
    parameters(&mut out, command)?;
    Ok(out)
}

/// The one spelling of a command; for a command whose fields are within their bounds it is read again.
pub fn write_command(alloc: Global, command: &Command) -> Result<Blob, NoMemory>
    ensures spelling { IfOk result (λ bytes. bytes ≡ spelled command.now) }
    ensures spells { FitsCommand command.now → IfOk result (λ bytes. Spells bytes command.now) }
{
    let mut message = message::begin(alloc)?;
    front(alloc, &mut message, command)?;
    parameters(&mut message, command)?;
    let code = command_code(command);
    Ok(message::finish(message, table::tag_of(code), code.number()))
}
