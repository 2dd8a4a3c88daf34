//! Bytes as a command.

ghost use Rattle.std.specs.Prelude.{◌≡◌, IfOk, OnOk, Ok, drop, length};
ghost use Rattle.tpol_base.specs.CommandCode.{code_of_number};
ghost use Rattle.tpol_fields.specs.Answers.{Gives, Reads};
ghost use Rattle.tpol_wire.specs.Answers.{RefusesBy};
ghost use Rattle.tpol_wire.specs.Commands.{Spells};
ghost use Rattle.tpol_wire.specs.declared.command.Command.{Command as CommandOf};
ghost use Rattle.tpol_wire.specs.Reading.{body_at, header_of, known as known_code, reading};
ghost use Rattle.tpol_wire.specs.WireRules.{wire_refusal};

use crate::command::Command;
use crate::commands::{
    context_load, context_save, duplicate, flush_context, hmac, nv_increment, nv_read, nv_write,
    pcr_extend, pcr_read, policy_auth_value, policy_authorize, policy_authorize_nv,
    policy_command_code, policy_counter_timer, policy_cp_hash, policy_duplication_select,
    policy_get_digest, policy_locality, policy_name_hash, policy_nv, policy_nv_written, policy_or,
    policy_password, policy_pcr, policy_physical_presence, policy_restart, policy_secret,
    policy_signed, policy_ticket, start_auth_session, unseal, verify_signature,
};
use std::alloc::Global;
use tpol_base::constants::{TPM_ST_NO_SESSIONS, TPM_ST_SESSIONS};
use tpol_base::response_code::{BAD_TAG, COMMAND_CODE, COMMAND_SIZE, SIZE};
use tpol_base::{CommandCode, Cursor};
use tpol_fields::WireFault;
use tpol_fields::fields::refused;

/// The longest command.
const MOST: usize = 4096;

/// The command's code, and whether the tag announces an authorization. The first fault is TPM_RC_COMMAND_SIZE,
/// TPM_RC_BAD_TAG or TPM_RC_COMMAND_CODE, in this order.
#[tactic(auto, unfolding(crate::specs::Reading::header_of))]
fn header(cursor: &mut Cursor) -> Result<(CommandCode, bool), WireFault>
    ensures head { Gives result (header_of cursor.old) }
    ensures rest { OnOk result (cursor.new ≡ drop 10 cursor.old) }
{
    let length = cursor.left();
    if length > MOST {
        return Err(refused(COMMAND_SIZE));
    }
    let Some(tag) = cursor.u16() else {
        return Err(refused(COMMAND_SIZE));
    };
    let Some(size) = cursor.u32() else {
        return Err(refused(COMMAND_SIZE));
    };
    let Some(code) = cursor.u32() else {
        return Err(refused(COMMAND_SIZE));
    };
    if size as usize != length {
        return Err(refused(COMMAND_SIZE));
    }
    match tag {
        TPM_ST_NO_SESSIONS => known(code, false),
        TPM_ST_SESSIONS => known(code, true),
        _ => Err(refused(BAD_TAG)),
    }
}

/// The command of the table that has this code.
fn known(code: u32, tagged: bool) -> Result<(CommandCode, bool), WireFault>
    ensures { Gives result (known_code (code_of_number code) tagged) }
{
    match CommandCode::from_number(code) {
        Some(code) => Ok((code, tagged)),
        None => Err(refused(COMMAND_CODE)),
    }
}

/// What stands behind the header: handles, authorization and parameters.
fn body(
    alloc: Global,
    code: CommandCode,
    tagged: bool,
    cursor: &mut Cursor,
) -> Result<Command, WireFault>
    ensures { Reads result (body_at code tagged cursor.old) cursor.new }
{
    match code {
        CommandCode::StartAuthSession => start_auth_session::read(tagged, cursor),
        CommandCode::ContextSave => context_save::read(tagged, cursor),
        CommandCode::ContextLoad => context_load::read(tagged, cursor),
        CommandCode::FlushContext => flush_context::read(tagged, cursor),
        CommandCode::PolicyRestart => policy_restart::read(tagged, cursor),
        CommandCode::PolicyGetDigest => policy_get_digest::read(tagged, cursor),
        CommandCode::PcrExtend => pcr_extend::read(alloc, tagged, cursor),
        CommandCode::PcrRead => pcr_read::read(tagged, cursor),
        CommandCode::VerifySignature => verify_signature::read(tagged, cursor),
        CommandCode::Unseal => unseal::read(alloc, tagged, cursor),
        CommandCode::Hmac => hmac::read(alloc, tagged, cursor),
        CommandCode::NvRead => nv_read::read(alloc, tagged, cursor),
        CommandCode::NvWrite => nv_write::read(alloc, tagged, cursor),
        CommandCode::NvIncrement => nv_increment::read(alloc, tagged, cursor),
        CommandCode::Duplicate => duplicate::read(alloc, tagged, cursor),
        CommandCode::PolicyNv => policy_nv::read(alloc, tagged, cursor),
        CommandCode::PolicyCpHash => policy_cp_hash::read(tagged, cursor),
        CommandCode::PolicyNameHash => policy_name_hash::read(tagged, cursor),
        CommandCode::PolicyAuthValue => policy_auth_value::read(tagged, cursor),
        CommandCode::PolicyPassword => policy_password::read(tagged, cursor),
        CommandCode::PolicyPhysicalPresence => policy_physical_presence::read(tagged, cursor),
        CommandCode::PolicyCommandCode => policy_command_code::read(tagged, cursor),
        CommandCode::PolicyCounterTimer => policy_counter_timer::read(alloc, tagged, cursor),
        CommandCode::PolicyLocality => policy_locality::read(tagged, cursor),
        CommandCode::PolicyPcr => policy_pcr::read(tagged, cursor),
        CommandCode::PolicyDuplicationSelect => policy_duplication_select::read(tagged, cursor),
        CommandCode::PolicyNvWritten => policy_nv_written::read(tagged, cursor),
        CommandCode::PolicySigned => policy_signed::read(alloc, tagged, cursor),
        CommandCode::PolicySecret => policy_secret::read(alloc, tagged, cursor),
        CommandCode::PolicyTicket => policy_ticket::read(alloc, tagged, cursor),
        CommandCode::PolicyAuthorize => policy_authorize::read(alloc, tagged, cursor),
        CommandCode::PolicyOr => policy_or::read(alloc, tagged, cursor),
        CommandCode::PolicyAuthorizeNv => policy_authorize_nv::read(alloc, tagged, cursor),
    }
}

#[tactic(auto, unfolding(crate::specs::Reading::reading))]
fn whole(alloc: Global, bytes: &[u8]) -> Result<Command, WireFault>
    ensures { Gives result (reading bytes.now) }
{
    let mut cursor = Cursor::new(bytes);
    let (code, tagged) = header(&mut cursor)?;
    let command = body(alloc, code, tagged, &mut cursor)?;
    if cursor.left() == 0 {
        Ok(command)
    } else {
        drop(command);
        Err(refused(SIZE))
    }
}

/// The command that the bytes spell, or the code of the first rule that they break (TPM 2.0 Part 3,
/// "Command Processing"). The rules in order:
///
/// 1. the buffer has 10 to 4,096 bytes, and its size field says how many;
/// 2. the tag is TPM_ST_NO_SESSIONS (0x8001) or TPM_ST_SESSIONS (0x8002);
/// 3. the code is one of the table;
/// 4. each handle is there and of its kind;
/// 5. the tag is TPM_ST_SESSIONS exactly where the row has an authorization;
/// 6. the authorization is one well-formed area within its bounds;
/// 7. each parameter is there and within its bounds;
/// 8. no bytes are left over.
pub fn read_command(alloc: Global, bytes: &[u8]) -> Result<Command, WireFault>
    // The answer is a function of the bytes.
    ensures reading { Gives result (reading bytes.now) }
    // The bytes spell the command,
    ensures found { IfOk result (λ command. Spells bytes.now command) }
    // and no other; a command that they spell is read, unless memory runs out.
    ensures only { (command : CommandOf) → Spells bytes.now command → Gives result (Ok command) }
    // A refusal has the code of the first rule that is broken, and comes exactly where one is.
    ensures refused { RefusesBy result (wire_refusal bytes.now) }
{
    whole(alloc, bytes)
}
