//! PolicyNV (TPM 2.0 Part 3).

ghost use Rattle.std.specs.Prelude.{◌≡◌, IfOk};
ghost use Rattle.tpol_driver.specs.Commands.{policy_nv};

use crate::commands::{Means, areas, handles};
use std::alloc::Global;
use tpol_base::{Blob, Compare, Name, NoMemory};
use tpol_wire::Command;

/// The comparison of an index, authorized by the password of what it is read by.
pub(crate) fn command(
    alloc: Global,
    means: &Means<'_>,
    index: &Name,
    operand: &Blob,
    offset: u16,
    operation: Compare,
) -> Result<Command, NoMemory>
    ensures { IfOk result (λ command. command
        ≡ policy_nv means.now.directory.now means.now.grants.now means.now.session.now index.now
        operand.now offset operation) }
{
    let handles = handles::index(means.directory, means.grants, index);
    Ok(Command::PolicyNv {
        authority: handles.authority,
        index: handles.index,
        session: means.session.handle,
        auth: areas::password(alloc, means.grants, handles.authority)?,
        operand: operand.clone()?,
        offset,
        operation,
    })
}
