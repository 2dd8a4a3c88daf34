//! PCR_Extend (TPM 2.0 Part 3, TPM2_PCR_Extend).

ghost use Rattle.std.specs.Prelude.{◌≡◌, None};
ghost use Rattle.tpm_rules.specs.Rule.{Obeys};
ghost use Rattle.tpm_world.specs.PcrExtend as spec;

use crate::World;
use tpm_rules::unless;
use tpol_base::response_code::{PCR, VALUE, of_handle};
use tpol_base::{Digest32, Rc};

/// That the handle is a PCR (TPM_RC_VALUE, handle 1), and that the update counter can rise (TPM_RC_PCR).
pub fn rule(world: &World, pcr: u32) -> Result<(), Rc>
    ensures rule { Obeys result (spec.rule world.now pcr) }
{
    unless(pcr < 24, VALUE + of_handle(1))?;
    unless(world.pcrs().counter() != u32::MAX, PCR)
}

/// Extends the PCR by the digest.
pub fn carry_out(world: &mut World, pcr: u32, digest: &Digest32)
    requires rule { spec.rule world.old pcr ≡ None }
    ensures world { world.new ≡ spec.after pcr digest.now world.old }
{
    match world.extend(pcr as u8, digest) {
        Ok(()) => {}
        Err(_) => unreachable!(),
    }
}
