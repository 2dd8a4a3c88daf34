//! The values of PCRs.

ghost use Rattle.std.specs.Prelude.{◌≡◌, ◌<◌, ◌==◌, codes, IfOk};
ghost use Rattle.std.specs.List.{list_any};
ghost use Rattle.serde_json.specs.View.{view};
ghost use Rattle.tpol_json.specs.Reading.{Gives};
ghost use Rattle.tpol_json.specs.Members.{optional};
ghost use Rattle.tpol_entities.specs.Members.{needed};
ghost use Rattle.tpol_entities.specs.Pcrs.{new_pcr_in, pcrs_in, zero_bank};
ghost use Rattle.tpol_entities.specs.Values.{digest_in};

use crate::SceneKind;
use crate::fault::PartFault;
use crate::lists::{ItemReader, optional_list};
use crate::members::zero_digest;
use serde_json::Value;
use std::alloc::Global;
use tpol_base::{Blob, Digest32, pcr};
use tpol_json::{PlaceRef, check_object, digest, needed, refuse, unsigned};

/// The values of the PCRs 0 to 23 (of the SHA-256 bank), and the numbers of those that were given one.
#[derive(Drop)]
pub struct PcrBank {
    pub values: [Digest32; pcr::COUNT],
    pub given: Blob,
}

/// The member `pcrs`: a list of objects with `pcr`, a number from 0 to 23, and `digest`, its value of 32 bytes.
/// Without it, and for the PCRs that it leaves out, the values are zero. `Missing`, `WrongKind`, `BadNumber` and
/// `BadHex` stand at the value at fault or missing, and `Twice` at a PCR that was given a value before. The first fault
/// in reading order is told.
pub fn optional_pcrs(
    alloc: Global,
    value: &Value,
    place: &PlaceRef<'_>,
) -> Result<PcrBank, PartFault>
    ensures { Gives result (optional pcrs_in zero_bank (codes "pcrs") (view value.now) place.now) }
{
    optional_list(alloc, &PcrReader, zero_bank(alloc), value, "pcrs", place)
}

fn zero_bank(alloc: Global) -> PcrBank
    ensures { result ≡ zero_bank }
{
    PcrBank {
        values: [zero_digest(); pcr::COUNT],
        given: Blob::new(alloc),
    }
}

// Reads the values of PCRs into a bank.
#[derive(Clone, Copy)]
struct PcrReader;

impl ItemReader<PcrBank> for PcrReader {
    ghost use Rattle.tpol_entities.specs.Pcrs.{pcr_in};

    ghost reading = { λ _. pcr_in };

    #[tactic(auto, unfolding(crate::specs::Pcrs::pcr_in))]
    fn read_item(
        &self,
        alloc: Global,
        bank: &mut PcrBank,
        _index: usize,
        item: &Value,
        place: &PlaceRef<'_>,
    ) -> Result<(), PartFault> {
        check_object(alloc, item, place)?;
        let pcr = needed_pcr(alloc, bank, item, place)?;
        let digest = needed_digest(alloc, item, place)?;
        bank.given.push(pcr)?;
        bank.values[pcr as usize] = digest;
        Ok(())
    }
}

fn needed_pcr(
    alloc: Global,
    bank: &PcrBank,
    item: &Value,
    place: &PlaceRef<'_>,
) -> Result<u8, PartFault>
    ensures value { Gives result
        (needed (new_pcr_in bank.now) (codes "pcr") (view item.now) place.now) }
    ensures limit { IfOk result (λ pcr. pcr < 24) }
{
    let (pcr, place) = needed(alloc, item, "pcr", place)?;
    new_pcr(alloc, bank, pcr, &place)
}

// The number of a PCR that was not given a value before.
fn new_pcr(
    alloc: Global,
    bank: &PcrBank,
    value: &Value,
    place: &PlaceRef<'_>,
) -> Result<u8, PartFault>
    ensures value { Gives result (new_pcr_in bank.now (view value.now) place.now) }
    ensures limit { IfOk result (λ pcr. pcr < 24) }
{
    let pcr = unsigned(alloc, value, 0, 23, place)? as u8;
    if is_given(bank, pcr) {
        refuse(alloc, SceneKind::Twice, place)
    } else {
        Ok(pcr)
    }
}

// The value of the PCR.
fn needed_digest(alloc: Global, item: &Value, place: &PlaceRef<'_>) -> Result<Digest32, PartFault>
    ensures { Gives result (needed digest_in (codes "digest") (view item.now) place.now) }
{
    let (value, place) = needed(alloc, item, "digest", place)?;
    digest(alloc, value, &place).map_err(PartFault::from)
}

// Whether the PCR was given a value before.
fn is_given(bank: &PcrBank, pcr: u8) -> bool
    ensures { result ≡ list_any (λ given. given == pcr) bank.now.given }
{
    bank.given.as_slice().contains(&pcr)
}
