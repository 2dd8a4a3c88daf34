//! The platform configuration registers.

ghost use Rattle.std.specs.Prelude.{◌≡◌, ◌<◌, ◌-◌, ◌^◌, ◌↔◌, length, IsErr, OnOk, OnErr};
ghost use Rattle.tpm_pcr.specs.Pcrs.{cleared, extended, selection_digest, value_of};

use std::marker::Model;
use tpol_base::pcr::is_in_mask;
use tpol_base::{Digest32, Digests};
use tpol_hash::Hasher;

/// The PCR update counter stands at its last value, 4,294,967,295.
#[derive(Clone, Copy, Debug, PartialEq, Eq)]
pub struct PcrFull;

/// The values of the 24 PCRs of the SHA-256 bank, and the PCR update counter, which rises by one at each
/// extend (TPM 2.0 Part 1, "PCR"); contracts see both.
#[derive(Drop)]
pub struct Pcrs {
    values: Vec<Digest32>,
    counter: u32,
}

impl Model for Pcrs {
    ghost use Rattle.std.specs.Prelude.{◌≡◌, ◌<◌, ◌^◌, vec_len};
    ghost use Rattle.tpm_pcr.specs.Bank.{Bank};

    ghost Value = { Bank };

    ghost view = { λ p. record { values = p.values.items; counter = p.counter } };

    ghost invariant = { λ p. vec_len p.values ≡ 24 };
}

impl Pcrs {
    /// PCRs of these values, PCR 0 first, and with this update counter.
    pub fn new(values: Digests, counter: u32) -> Pcrs
        requires all { length values ≡ 24 }
        ensures values { result.values ≡ values }
        ensures counter { result.counter ≡ counter }
    {
        Pcrs {
            values: values.into_vec(),
            counter,
        }
    }

    /// Extends a PCR: its value becomes the hash of the value and the digest, and the counter rises by one
    /// (TPM 2.0 Part 3, TPM2_PCR_Extend). Answers `PcrFull`, and changes nothing, exactly where the counter
    /// stands at its last value.
    pub fn extend(&mut self, pcr: u8, digest: &Digest32) -> Result<(), PcrFull>
        requires below { pcr < 24 }
        ensures full { IsErr result ↔ (self.old.counter ≡ 2 ^ 32 - 1) }
        ensures ok { OnOk result (self.new ≡ extended self.old pcr digest.now) }
        ensures err { OnErr result (self.new ≡ self.old) }
    {
        let counter = self.counter.checked_add(1).ok_or(PcrFull)?;
        let mut hasher = Hasher::new();
        hasher.put(&self.values[pcr as usize].bytes);
        hasher.put(&digest.bytes);
        self.values[pcr as usize] = hasher.done();
        self.counter = counter;
        Ok(())
    }

    /// Makes all values 32 zero bytes and the counter 0, as a TPM Reset does here.
    pub fn clear(&mut self)
        ensures cleared { self.new ≡ cleared }
    {
        self.values.fill(Digest32::ZERO);
        self.counter = 0;
    }

    /// The value of a PCR.
    pub fn value(&self, pcr: u8) -> Digest32
        requires below { pcr < 24 }
        ensures value { result ≡ value_of self.now.values pcr }
    {
        self.values[pcr as usize]
    }

    /// The values of all 24, PCR 0 first.
    pub fn values(&self) -> &[Digest32]
        ensures values { result.now ≡ self.now.values }
        ensures all { length result.now ≡ 24 }
    {
        self.values.as_slice()
    }

    /// The update counter.
    pub fn counter(&self) -> u32
        ensures counter { result ≡ self.now.counter }
    {
        self.counter
    }

    /// The digest of the selected PCRs: the hash of the concatenation of their values, in rising order
    /// (TPM 2.0 Part 3, TPM2_PolicyPCR). Bit n of the mask stands for PCR n.
    pub fn digest_of_selection(&self, mask: u32) -> Digest32
        ensures digest { result ≡ selection_digest self.now.values mask }
    {
        digest_of_selection(self.values.as_slice(), mask)
    }
}

/// `Pcrs::digest_of_selection` of 24 values, PCR 0 first.
pub fn digest_of_selection(values: &[Digest32], mask: u32) -> Digest32
    requires all { length values.now ≡ 24 }
    ensures digest { result ≡ selection_digest values.now mask }
{
    let mut hasher = Hasher::new();
    for (pcr, value) in values.iter().enumerate() {
        if is_in_mask(mask, pcr as u8) {
            hasher.put(&value.bytes);
        }
    }
    hasher.done()
}
