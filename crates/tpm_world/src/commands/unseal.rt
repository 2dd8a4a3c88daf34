//! Unseal (TPM 2.0 Part 3, TPM2_Unseal).

ghost use Rattle.std.specs.Prelude.{◌≡◌, IfOk};
ghost use Rattle.tpm_rules.specs.Rule.{Obeys};
ghost use Rattle.tpm_world.specs.Unseal as spec;

use crate::World;
use crate::missing::missing_object;
use tpm_rules::unseal_rule;
use tpol_base::{NoMemory, Rc};
use tpol_wire::Reply;

/// That the object is sealed data, and that none of restricted, decrypt and sign is set (TPM_RC_ATTRIBUTES,
/// handle 1).
pub fn rule(world: &World, handle: u32) -> Result<(), Rc>
    ensures rule { Obeys result (spec.rule world.now handle) }
{
    match world.object(handle) {
        Some(object) => unseal_rule(&object.public),
        None => Err(missing_object()),
    }
}

/// The secret.
pub fn reply(world: &World, handle: u32) -> Result<Reply, NoMemory>
    ensures reply { IfOk result (λ reply. reply ≡ spec.reply world.now handle) }
{
    match world.object(handle) {
        Some(object) => Ok(Reply::Unseal {
            bytes: object.secret.clone()?,
        }),
        None => Ok(Reply::Refused(missing_object())),
    }
}
