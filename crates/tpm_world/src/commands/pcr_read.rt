//! PCR_Read (TPM 2.0 Part 3, TPM2_PCR_Read).

ghost use Rattle.std.specs.Prelude.{◌≡◌, IfOk};
ghost use Rattle.tpm_world.specs.PcrRead as spec;

use crate::World;
use std::alloc::Global;
use tpol_base::pcr::is_in_mask;
use tpol_base::{Digests, NoMemory};
use tpol_wire::Reply;

/// The greatest number of PCRs that one command reads.
const MOST: usize = 8;

/// The values of the first eight of the selected PCRs, with their selection and the update counter. Bit n of a
/// mask stands for PCR n.
pub fn reply(alloc: Global, world: &World, mask: u32) -> Result<Reply, NoMemory>
    ensures reply { IfOk result (λ reply. reply ≡ spec.reply world.now mask) }
{
    let pcrs = world.pcrs();
    let mut digests = Digests::new(alloc);
    let mut read = 0;
    for pcr in 0..24 {
        if digests.len() < MOST && is_in_mask(mask, pcr) {
            digests.push(pcrs.value(pcr))?;
            read |= 1 << pcr;
        }
    }
    Ok(Reply::PcrRead {
        counter: pcrs.counter(),
        mask: read,
        digests,
    })
}
