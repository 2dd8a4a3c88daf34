//! Duplicate (TPM 2.0 Part 3, TPM2_Duplicate).

ghost use Rattle.std.specs.Prelude.{◌≡◌, ◌++◌, IfOk, OnOk};
ghost use Rattle.tpol_base.specs.Sized.{sized};
ghost use Rattle.tpm_rules.specs.Rule.{Obeys};
ghost use Rattle.tpm_world.specs.Duplicate as spec;

use crate::World;
use crate::missing::missing_object;
use std::alloc::Global;
use tpm_rules::duplicate_rule;
use tpol_base::constants::TPM_ALG_KEYEDHASH;
use tpol_base::{Blob, NoMemory, Rc};
use tpol_name::ObjectEntry;
use tpol_wire::Reply;

/// That the object may have another parent (TPM_RC_ATTRIBUTES, handle 1).
pub fn rule(world: &World, handle: u32) -> Result<(), Rc>
    ensures rule { Obeys result (spec.rule world.now handle) }
{
    match world.object(handle) {
        Some(object) => duplicate_rule(&object.public),
        None => Err(missing_object()),
    }
}

/// The sensitive area of the object behind its length, neither encrypted nor wrapped.
pub fn reply(alloc: Global, world: &World, handle: u32) -> Result<Reply, NoMemory>
    ensures reply { IfOk result (λ reply. reply ≡ spec.reply world.now handle) }
{
    match world.object(handle) {
        Some(object) => {
            let sensitive = sensitive_of(alloc, object)?;
            let mut bytes = Blob::new(alloc);
            push_sized(&mut bytes, sensitive.as_slice())?;
            Ok(Reply::Duplicate { bytes })
        }
        None => Ok(Reply::Refused(missing_object())),
    }
}

// The sensitive area: the type, the authorization value, an empty seed and the secret.
fn sensitive_of(alloc: Global, object: &ObjectEntry) -> Result<Blob, NoMemory>
    ensures { IfOk result (λ bytes. bytes ≡ spec.sensitive_of object.now) }
{
    let mut bytes = Blob::new(alloc);
    bytes.extend_from_slice(&TPM_ALG_KEYEDHASH.to_be_bytes())?;
    push_sized(&mut bytes, object.auth.as_slice())?;
    push_sized(&mut bytes, &[])?;
    push_sized(&mut bytes, object.secret.as_slice())?;
    Ok(bytes)
}

// Adds a sized buffer (TPM2B): the last two bytes of the length, and the bytes.
fn push_sized(out: &mut Blob, bytes: &[u8]) -> Result<(), NoMemory>
    ensures { OnOk result (out.new ≡ out.old ++ sized bytes.now) }
{
    let length = bytes.len().to_be_bytes();
    out.extend_from_slice(&length[6..])?;
    out.extend_from_slice(bytes)
}
