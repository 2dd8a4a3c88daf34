//! The parameters that TPM2_PolicySigned and TPM2_PolicySecret have in common: nonceTPM, cpHashA, policyRef and
//! expiration (TPM 2.0 Part 3).

ghost use Rattle.tpol_base.specs.ResponseCode.{of_parameter};
ghost use Rattle.tpol_fields.specs.Answers.{ReadsAs, ReadsBefore};
ghost use Rattle.tpol_wire.specs.Commands.{spell_values};
ghost use Rattle.tpol_fields.specs.Kinds.{read as read_kind};
ghost use Rattle.tpol_wire.specs.Reading.{values_at};
ghost use Rattle.tpol_base.specs.declared.command_code.CommandCode.TheVariants as CommandCode;
ghost use Rattle.tpol_fields.specs.FieldKinds.{signature as signature_kind};
ghost use Rattle.tpol_wire.specs.Rows.{row};
ghost use Rattle.tpol_fields.specs.Spellings.{Appends};

use std::alloc::Global;
use tpol_base::{Blob, Cursor, Digest32, NoMemory};
use tpol_fields::{WireFault, fields, spelling};

/// The common parameters.
#[derive(Drop)]
pub(crate) struct Assertion {
    pub(crate) nonce: Blob,
    pub(crate) cp_hash: Option<Digest32>,
    pub(crate) policy_ref: Blob,
    pub(crate) expiration: i32,
}

/// Reads the common parameters, 1 to 4: a nonce of at most 32 bytes, a cpHashA of 0 or 32, a policyRef of at most
/// 64, and the expiration.
pub(crate) fn read(alloc: Global, cursor: &mut Cursor) -> Result<Assertion, WireFault>
    ensures secret { ReadsAs (λ found.
        (found.nonce, (found.cp_hash, (found.policy_ref, (found.expiration, tt))))) result
        (values_at (of_parameter 1) (row CommandCode.PolicySecret).parameters cursor.old)
        cursor.new }
    ensures signed { ReadsBefore
        (λ found signature. (
          found.nonce,
          (found.cp_hash, (found.policy_ref, (found.expiration, (signature, tt)))),
        ))
        (read_kind (of_parameter 5) signature_kind) result
        (values_at (of_parameter 1) (row CommandCode.PolicySigned).parameters cursor.old)
        cursor.new }
{
    let nonce = fields::copied_buffer(alloc, cursor, 1, 32)?;
    let cp_hash = fields::optional(cursor, 2)?;
    let policy_ref = fields::copied_buffer(alloc, cursor, 3, 64)?;
    let expiration = fields::signed(cursor, 4)?;
    Ok(Assertion {
        nonce,
        cp_hash,
        policy_ref,
        expiration,
    })
}

/// Writes the common parameters.
pub(crate) fn write(
    out: &mut Blob,
    nonce: &Blob,
    cp_hash: &Option<Digest32>,
    policy_ref: &Blob,
    expiration: &i32,
) -> Result<(), NoMemory>
    ensures { Appends result out.old out.new
        (spell_values (row CommandCode.PolicySecret).parameters
        (nonce.now, (cp_hash.now, (policy_ref.now, (expiration.now, tt))))) }
{
    spelling::sized(out, nonce.as_slice())?;
    spelling::optional(out, cp_hash)?;
    spelling::sized(out, policy_ref.as_slice())?;
    spelling::signed(out, *expiration)
}
