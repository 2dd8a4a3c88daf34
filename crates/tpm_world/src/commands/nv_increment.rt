//! NV_Increment (TPM 2.0 Part 3, TPM2_NV_Increment).

ghost use Rattle.std.specs.Prelude.{◌≡◌, None};
ghost use Rattle.tpm_rules.specs.Rule.{Obeys};
ghost use Rattle.tpm_world.specs.NvIncrement as spec;

use crate::World;
use crate::missing::missing_index;
use tpm_rules::nv_authority_rule;
use tpol_base::{CommandCode, Rc};

/// That the authorized handle may write the index (TPM_RC_NV_AUTHORIZATION), that it is a counter
/// (TPM_RC_ATTRIBUTES, handle 2), and that its count does not stand at its last value (TPM_RC_NV_RANGE).
pub fn rule(world: &World, authority: u32, index: u32) -> Result<(), Rc>
    ensures rule { Obeys result (spec.rule world.now authority index) }
{
    match world.index(index) {
        Some(entry) => {
            nv_authority_rule(authority, &entry.public, CommandCode::NvIncrement.number())?;
            world.nv().next_count(index)?;
            Ok(())
        }
        None => Err(missing_index()),
    }
}

/// Raises the count by one.
pub fn carry_out(world: &mut World, authority: u32, index: u32)
    requires rule { spec.rule world.old authority index ≡ None }
    ensures world { world.new ≡ spec.after index world.old }
{
    match world.increment(index) {
        Ok(()) => {}
        Err(_) => unreachable!(),
    }
}
