//! HMAC (TPM 2.0 Part 3, TPM2_HMAC).

ghost use Rattle.std.specs.Prelude.{◌≡◌};
ghost use Rattle.tpol_hash.specs.Hmac.{hmac_sha256};
ghost use Rattle.tpm_rules.specs.Rule.{Obeys};
ghost use Rattle.tpm_world.specs.Hmac as spec;

use crate::World;
use crate::missing::missing_object;
use tpm_rules::hmac_rule;
use tpol_base::{Digest32, Rc};
use tpol_hash::Mac;
use tpol_wire::Reply;

/// That the key is not restricted (TPM_RC_ATTRIBUTES, handle 1), and that it is an HMAC key that may sign
/// (TPM_RC_KEY, handle 1).
pub fn rule(world: &World, key: u32) -> Result<(), Rc>
    ensures rule { Obeys result (spec.rule world.now key) }
{
    match world.object(key) {
        Some(object) => hmac_rule(&object.public),
        None => Err(missing_object()),
    }
}

/// The HMAC of the buffer by the key.
pub fn reply(world: &World, key: u32, buffer: &[u8]) -> Reply
    ensures reply { result ≡ spec.reply world.now key buffer.now }
{
    match world.object(key) {
        Some(object) => Reply::Hmac {
            digest: hmac_of(object.secret.as_slice(), buffer),
        },
        None => Reply::Refused(missing_object()),
    }
}

// The HMAC of a message.
fn hmac_of(key: &[u8], message: &[u8]) -> Digest32
    ensures { result ≡ hmac_sha256 key.now message.now }
{
    let mut mac = Mac::new(key);
    mac.put(message);
    mac.done()
}
