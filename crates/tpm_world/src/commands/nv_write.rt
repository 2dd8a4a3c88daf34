//! NV_Write (TPM 2.0 Part 3, TPM2_NV_Write).

ghost use Rattle.std.specs.Prelude.{◌≡◌, None};
ghost use Rattle.tpm_rules.specs.Rule.{Obeys};
ghost use Rattle.tpm_world.specs.NvWrite as spec;

use crate::World;
use crate::missing::missing_index;
use tpm_nv::check_write;
use tpm_rules::nv_authority_rule;
use tpol_base::{CommandCode, Rc};

/// That the authorized handle may write the index (TPM_RC_NV_AUTHORIZATION), that it is of the type ordinary
/// (TPM_RC_ATTRIBUTES, handle 2), that the offset is not past its end (TPM_RC_VALUE, parameter 2), and that
/// the bytes are not, and are all of its content where it takes nothing less (TPM_RC_NV_RANGE).
pub fn rule(world: &World, authority: u32, index: u32, bytes: &[u8], offset: u16) -> Result<(), Rc>
    ensures rule { Obeys result (spec.rule world.now authority index bytes.now offset) }
{
    match world.index(index) {
        Some(entry) => {
            nv_authority_rule(authority, &entry.public, CommandCode::NvWrite.number())?;
            check_write(entry, offset, bytes.len())
        }
        None => Err(missing_index()),
    }
}

/// Writes the bytes into the index, from the offset on.
pub fn carry_out(world: &mut World, authority: u32, index: u32, bytes: &[u8], offset: u16)
    requires rule { spec.rule world.old authority index bytes.now offset ≡ None }
    ensures world { world.new ≡ spec.after index offset bytes.now world.old }
{
    match world.write(index, offset, bytes) {
        Ok(()) => {}
        Err(_) => unreachable!(),
    }
}
