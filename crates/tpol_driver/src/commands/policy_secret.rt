//! PolicySecret (TPM 2.0 Part 3).

ghost use Rattle.std.specs.Prelude.{◌≡◌, IfOk};
ghost use Rattle.tpol_driver.specs.Commands.{policy_secret};

use crate::commands::{Means, areas, handles};
use std::alloc::Global;
use tpol_base::{Blob, Digest32, Name, NoMemory};
use tpol_wire::Command;

/// The authorization of an entity by its password, over the session's nonce.
pub(crate) fn command(
    alloc: Global,
    means: &Means<'_>,
    entity: &Name,
    policy_ref: &Blob,
    cp_hash: Option<Digest32>,
    expiration: i32,
) -> Result<Command, NoMemory>
    ensures { IfOk result (λ command. command
        ≡ policy_secret means.now.directory.now means.now.grants.now means.now.session.now
        entity.now policy_ref.now cp_hash expiration) }
{
    let entity = handles::entity(means.directory, entity);
    Ok(Command::PolicySecret {
        entity,
        session: means.session.handle,
        auth: areas::password(alloc, means.grants, entity)?,
        nonce: Blob::from_slice(alloc, &means.session.nonce.bytes)?,
        cp_hash,
        policy_ref: policy_ref.clone()?,
        expiration,
    })
}
