//! PolicySigned (TPM 2.0 Part 3).

ghost use Rattle.std.specs.Prelude.{◌≡◌, IfOk};
ghost use Rattle.tpol_driver.specs.Commands.{key_of, policy_signed};

use crate::commands::{Means, handles};
use std::alloc::Global;
use tpm_auth::{sign, signed_hash};
use tpol_base::{Blob, Digest32, Name, NoMemory};
use tpol_goal::Grants;
use tpol_wire::Command;

/// The signature of the granted key over the session's nonce and the other parameters.
pub(crate) fn command(
    alloc: Global,
    means: &Means<'_>,
    key: &Name,
    policy_ref: &Blob,
    cp_hash: Option<Digest32>,
    expiration: i32,
) -> Result<Command, NoMemory>
    ensures { IfOk result (λ command. command
        ≡ policy_signed means.now.directory.now means.now.grants.now means.now.session.now key.now
        policy_ref.now cp_hash expiration) }
{
    let key = handles::key(means.directory, key);
    let signed = signed_hash(
        &means.session.nonce.bytes,
        expiration,
        Digest32::optional_bytes(&cp_hash),
        policy_ref.as_slice(),
    );
    Ok(Command::PolicySigned {
        key,
        session: means.session.handle,
        nonce: Blob::from_slice(alloc, &means.session.nonce.bytes)?,
        cp_hash,
        policy_ref: policy_ref.clone()?,
        expiration,
        signature: sign(granted_key(means.grants, key), &signed),
    })
}

// The key that is granted for an object, empty where none is.
fn granted_key(grants: &Grants, handle: u32) -> &[u8]
    ensures { result.now ≡ key_of grants.now handle }
{
    match grants.key(handle) {
        Some(key) => key,
        None => &[],
    }
}
