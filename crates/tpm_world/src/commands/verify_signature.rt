//! VerifySignature (TPM 2.0 Part 3, TPM2_VerifySignature).

ghost use Rattle.std.specs.Prelude.{◌≡◌, IfOk};
ghost use Rattle.tpm_rules.specs.Rule.{Obeys};
ghost use Rattle.tpm_world.specs.VerifySignature as spec;

use crate::World;
use crate::missing::missing_object;
use std::alloc::Global;
use tpm_auth::{sign, verified_ticket};
use tpm_rules::verify_signature_rule;
use tpol_base::constants::TPM_ST_VERIFIED;
use tpol_base::handle::TPM_RH_OWNER;
use tpol_base::{Blob, Digest32, NoMemory, Rc};
use tpol_name::{ObjectEntry, object_name};
use tpol_wire::{Reply, Ticket};

/// That the object is an HMAC key that may sign (TPM_RC_ATTRIBUTES, handle 1), and that the signature is the
/// key's (TPM_RC_SIGNATURE, parameter 2).
pub fn rule(world: &World, key: u32, digest: &Digest32, signature: &Digest32) -> Result<(), Rc>
    ensures rule { Obeys result (spec.rule world.now key digest.now signature.now) }
{
    match world.object(key) {
        Some(object) => {
            let right = *signature == sign(object.secret.as_slice(), digest);
            verify_signature_rule(&object.public, right)
        }
        None => Err(missing_object()),
    }
}

/// The ticket that the key's signature of the digest was verified.
pub fn reply(alloc: Global, world: &World, key: u32, digest: &Digest32) -> Result<Reply, NoMemory>
    ensures reply { IfOk result (λ reply. reply ≡ spec.reply world.now key digest.now) }
{
    match world.object(key) {
        Some(object) => {
            let ticket = ticket_of(alloc, world, digest, object)?;
            Ok(Reply::VerifySignature { ticket })
        }
        None => Ok(Reply::Refused(missing_object())),
    }
}

// The ticket, under the proof of this machine.
fn ticket_of(
    alloc: Global,
    world: &World,
    digest: &Digest32,
    object: &ObjectEntry,
) -> Result<Ticket, NoMemory>
    ensures { IfOk result (λ ticket. ticket ≡ spec.ticket_of world.now digest.now object.now) }
{
    let hmac = verified_ticket(&world.proof(), digest, &object_name(&object.public));
    Ok(Ticket {
        tag: TPM_ST_VERIFIED,
        hierarchy: TPM_RH_OWNER,
        digest: Blob::from_slice(alloc, &hmac.bytes)?,
    })
}
