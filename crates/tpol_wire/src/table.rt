//! The table of commands: which of them are authorized, and their tags.

ghost use Rattle.std.specs.Prelude.{◌≡◌};
ghost use Rattle.tpol_wire.specs.Commands.{tag};
ghost use Rattle.tpol_wire.specs.Rows.{row};

use tpol_base::CommandCode;
use tpol_base::constants::{TPM_ST_NO_SESSIONS, TPM_ST_SESSIONS};

/// Whether the command's first handle is authorized.
pub(crate) fn is_authorized(code: CommandCode) -> bool
    ensures { result ≡ (row code).is_authorized }
{
    match code {
        CommandCode::PcrExtend
        | CommandCode::Unseal
        | CommandCode::Hmac
        | CommandCode::NvRead
        | CommandCode::NvWrite
        | CommandCode::NvIncrement
        | CommandCode::Duplicate
        | CommandCode::PolicyNv
        | CommandCode::PolicySecret
        | CommandCode::PolicyAuthorizeNv => true,
        _ => false,
    }
}

/// The tag of the command, and of a reply to it that is no refusal (TPM 2.0 Part 2, TPM_ST).
pub(crate) fn tag_of(code: CommandCode) -> u16
    ensures { result ≡ tag (row code).is_authorized }
{
    if is_authorized(code) {
        TPM_ST_SESSIONS
    } else {
        TPM_ST_NO_SESSIONS
    }
}
