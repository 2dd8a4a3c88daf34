//! The front of a command that takes no authorization and has one handle, a policy session (TPM 2.0 Part 3).

ghost use Rattle.std.specs.Prelude.{[], ◌∷◌, false};
ghost use Rattle.tpol_fields.specs.Answers.{ReadsAs};
ghost use Rattle.tpol_wire.specs.Reading.{front_at};
ghost use Rattle.tpol_fields.specs.FieldKinds.{handle as handle_type};

use crate::authorization;
use tpol_base::Cursor;
use tpol_fields::{HandleType, WireFault, fields};

/// Reads the policy session; `tagged` says whether the tag announces an authorization, which there is not to be
/// (TPM_RC_AUTH_CONTEXT).
pub(crate) fn read(tagged: bool, cursor: &mut Cursor) -> Result<u32, WireFault>
    ensures { ReadsAs (λ session. ((session, tt), tt)) result
        (front_at (handle_type HandleType.PolicySession ∷ []) false tagged cursor.old) cursor.new }
{
    let session = fields::handle(cursor, 1, HandleType::PolicySession)?;
    authorization::none(tagged)?;
    Ok(session)
}
