//! The PCRs of a POLICYPCR: the values as written, or the current ones.

ghost use Rattle.std.specs.Prelude.{◌≡◌, map};
ghost use Rattle.std.specs.Option.{option_copied};
ghost use Rattle.tpol_base.specs.Pcr.{mask_of_pcrs, pcrs_of_mask};
ghost use Rattle.tpol_digest.specs.Update.{joined};
ghost use Rattle.tpol_fill.specs.Filling.{current_faults, current_value, filled_pcrs, pcr_assertion, pcr_faults, value_faults, or_zero};
ghost use Rattle.tpol_fill.specs.Outcome.{Fills, each_fault};
ghost use Rattle.tpol_hash.specs.Sha256.{sha256_digest};
ghost use Rattle.tpol_tree.specs.declared.wishes.PcrWish.TheVariants.{Current};

use crate::fault::fault_at;
use crate::{FillFault, FillKind};
use std::alloc::Global;
use tpol_base::pcr::{self, pcrs_of_mask};
use tpol_base::{Digest32, Digests};
use tpol_hash::Hasher;
use tpol_json::PlaceRef;
use tpol_name::Sight;
use tpol_tree::{Assertion, PcrWish};

/// The assertion of the PCRs of an element that stands at `place`.
pub fn fill_pcrs(
    alloc: Global,
    wish: &PcrWish,
    sight: Option<&Sight>,
    place: &PlaceRef<'_>,
) -> Result<Assertion, FillFault>
    ensures { Fills (pcr_faults (option_copied sight.entry) place.now wish.now)
        (λ assertion. assertion ≡ filled_pcrs wish.now (option_copied sight.entry)) result }
{
    match wish {
        PcrWish::Values(values) => {
            let list = place.member("pcrs");
            written_pcrs(alloc, values.as_slice(), &list)
        }
        PcrWish::Current(mask) => {
            let list = place.member("currentPCRs");
            current_pcrs(alloc, *mask, sight, &list)
        }
    }
}

// The assertion of a set of PCRs with their current values.
fn current_pcrs(
    alloc: Global,
    mask: u32,
    sight: Option<&Sight>,
    list: &PlaceRef<'_>,
) -> Result<Assertion, FillFault>
    ensures { Fills (each_fault (current_faults (option_copied sight.entry) list.now) 0
        (pcrs_of_mask mask))
        (λ assertion. assertion ≡ filled_pcrs (Current mask) (option_copied sight.entry)) result }
{
    let pcrs = pcrs_of_mask(alloc, mask)?;
    let values = current_values(alloc, pcrs.as_slice(), sight, list)?;
    Ok(pcr_assertion(mask, values))
}

// The assertion of PCRs with their values as written.
fn written_pcrs(
    alloc: Global,
    values: &[(u8, Digest32)],
    list: &PlaceRef<'_>,
) -> Result<Assertion, FillFault>
    ensures { Fills (each_fault (value_faults list.now) 0 values.now)
        (λ assertion. assertion ≡ pcr_assertion (mask_of_pcrs (map (λ v. v.0) values.now))
        (map (λ v. v.1) values.now)) result }
{
    let mut mask = 0;
    let mut digests = Digests::new(alloc);
    for (index, (pcr, digest)) in values.iter().enumerate() {
        if usize::from(*pcr) >= pcr::COUNT {
            let item = list.item(index);
            return Err(fault_at(alloc, FillKind::NoSuchPcr, &item.member("pcr")));
        }
        mask |= 1u32 << *pcr;
        digests.push(*digest)?;
    }
    Ok(pcr_assertion(mask, digests))
}

// The current values of these PCRs.
fn current_values(
    alloc: Global,
    pcrs: &[u8],
    sight: Option<&Sight>,
    list: &PlaceRef<'_>,
) -> Result<Digests, FillFault>
    ensures { Fills (each_fault (current_faults (option_copied sight.entry) list.now) 0 pcrs.now)
        (λ values. values ≡ map (λ pcr. or_zero (current_value (option_copied sight.entry) pcr))
        pcrs.now) result }
{
    let mut values = Digests::new(alloc);
    for (index, pcr) in pcrs.iter().enumerate() {
        match current_value(sight, *pcr) {
            Ok(value) => values.push(value)?,
            Err(kind) => {
                return Err(fault_at(alloc, kind, &list.item(index)));
            }
        }
    }
    Ok(values)
}

// The current value of a PCR.
fn current_value(sight: Option<&Sight>, pcr: u8) -> Result<Digest32, FillKind>
    ensures { result ≡ current_value (option_copied sight.entry) pcr }
{
    if usize::from(pcr) >= pcr::COUNT {
        return Err(FillKind::NoSuchPcr);
    }
    match sight {
        Some(sight) => match sight.pcrs.get(usize::from(pcr)) {
            Some(value) => Ok(*value),
            None => Err(FillKind::NoSuchPcr),
        },
        None => Err(FillKind::NoSuchPcr),
    }
}

fn pcr_assertion(mask: u32, values: Digests) -> Assertion
    ensures { result ≡ pcr_assertion mask values }
{
    Assertion::Pcr {
        mask,
        pcr_digest: digest_of_values(values.as_slice()),
        values,
    }
}

// The digest of values joined.
fn digest_of_values(values: &[Digest32]) -> Digest32
    ensures { result ≡ sha256_digest (joined values.now) }
{
    let mut hasher = Hasher::new();
    for value in values {
        hasher.put(&value.bytes);
    }
    hasher.done()
}
