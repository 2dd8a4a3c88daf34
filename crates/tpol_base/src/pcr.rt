//! Platform configuration registers (PCRs): sets of them as masks with bit n for PCR n, and their selection
//! (TPM 2.0 Part 2, TPML_PCR_SELECTION).

ghost use Rattle.std.specs.Prelude.{◌≡◌, ◌<◌, IfOk};
ghost use Rattle.tpol_base.specs.Pcr.{is_in_mask, pcr_selection, pcrs_of_mask};

use crate::NoMemory;
use std::alloc::Global;

/// The number of PCRs.
pub const COUNT: usize = 24;

/// Whether a set has this PCR.
pub fn is_in_mask(mask: u32, pcr: u8) -> bool
    requires { pcr < 32 }
    ensures { result ≡ is_in_mask mask pcr }
{
    (mask >> pcr) % 2 == 1
}

/// The numbers of a set's PCRs in rising order, 0 to 31.
#[tactic(auto, unfolding(crate::specs::Pcr::pcrs_of_mask))]
pub fn pcrs_of_mask(alloc: Global, mask: u32) -> Result<Vec<u8>, NoMemory>
    ensures { IfOk result (λ pcrs. pcrs.items ≡ pcrs_of_mask mask) }
{
    Ok(
        (0..32)
            .filter(|pcr| (mask >> *pcr) % 2 == 1)
            .collect(alloc)?,
    )
}

/// The bytes of a selection of SHA-256 PCRs with three bytes of mask; the bits from 24 on are left out.
pub fn selection(mask: u32) -> [u8; 10]
    ensures { result ≡ pcr_selection mask }
{
    let [first, second, third, _] = mask.to_le_bytes();
    [
        0x00, 0x00, 0x00, 0x01, 0x00, 0x0b, 0x03, first, second, third,
    ]
}
