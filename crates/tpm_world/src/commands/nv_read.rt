//! NV_Read (TPM 2.0 Part 3, TPM2_NV_Read).

ghost use Rattle.std.specs.Prelude.{◌≡◌, None, IfOk};
ghost use Rattle.tpm_rules.specs.Rule.{Obeys};
ghost use Rattle.tpm_world.specs.NvRead as spec;

use crate::World;
use crate::missing::missing_index;
use std::alloc::Global;
use tpm_nv::check_read;
use tpm_rules::nv_authority_rule;
use tpol_base::{Blob, CommandCode, NoMemory, Rc};
use tpol_wire::Reply;

/// That the authorized handle may read the index (TPM_RC_NV_AUTHORIZATION), that it was written
/// (TPM_RC_NV_UNINITIALIZED), that the offset is not past its end (TPM_RC_VALUE, parameter 2), and that the
/// bytes are not (TPM_RC_NV_RANGE).
pub fn rule(world: &World, authority: u32, index: u32, size: u16, offset: u16) -> Result<(), Rc>
    ensures rule { Obeys result (spec.rule world.now authority index size offset) }
{
    match world.index(index) {
        Some(entry) => {
            nv_authority_rule(authority, &entry.public, CommandCode::NvRead.number())?;
            check_read(entry, offset, size)
        }
        None => Err(missing_index()),
    }
}

/// So many bytes of the index, from the offset on.
pub fn reply(
    alloc: Global,
    world: &World,
    authority: u32,
    index: u32,
    size: u16,
    offset: u16,
) -> Result<Reply, NoMemory>
    requires rule { spec.rule world.now authority index size offset ≡ None }
    ensures reply { IfOk result (λ reply. reply ≡ spec.reply world.now index size offset) }
{
    match world.nv().read(index, offset, size) {
        Ok(bytes) => Ok(Reply::NvRead {
            bytes: Blob::from_slice(alloc, bytes)?,
        }),
        Err(_) => unreachable!(),
    }
}
