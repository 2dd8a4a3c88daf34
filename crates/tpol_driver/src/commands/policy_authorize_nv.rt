//! PolicyAuthorizeNV (TPM 2.0 Part 3).

ghost use Rattle.std.specs.Prelude.{◌≡◌, IfOk};
ghost use Rattle.tpol_driver.specs.Commands.{policy_authorize_nv};

use crate::commands::{Means, areas, handles};
use std::alloc::Global;
use tpol_base::{Name, NoMemory};
use tpol_wire::Command;

/// The approval by what an index holds, authorized by the password of what the index is read by.
pub(crate) fn command(alloc: Global, means: &Means<'_>, index: &Name) -> Result<Command, NoMemory>
    ensures { IfOk result (λ command. command
        ≡ policy_authorize_nv means.now.directory.now means.now.grants.now means.now.session.now
        index.now) }
{
    let handles = handles::index(means.directory, means.grants, index);
    Ok(Command::PolicyAuthorizeNv {
        authority: handles.authority,
        index: handles.index,
        session: means.session.handle,
        auth: areas::password(alloc, means.grants, handles.authority)?,
    })
}
