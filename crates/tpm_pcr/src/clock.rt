//! The clock as PolicyCounterTimer compares it.

ghost use Rattle.std.specs.Prelude.{◌≡◌};
ghost use Rattle.tpm_pcr.specs.Clock.{clock_info};

use tpol_base::yes_no;

/// A TPM's time in milliseconds, which its clock shows too, its counters of resets and restarts, and whether the
/// clock is safe (TPM 2.0 Part 2, TPMS_TIME_INFO).
#[derive(Clone, Copy, Debug, PartialEq, Eq)]
pub struct Clock {
    pub time: u64,
    pub reset_count: u32,
    pub restart_count: u32,
    pub safe: bool,
}

impl Clock {
    /// The 25 bytes that PolicyCounterTimer compares: time, clock, resetCount, restartCount and safe, each
    /// big-endian (TPM 2.0 Part 2, TPMS_TIME_INFO).
    pub fn info(&self) -> [u8; 25]
        ensures info { result ≡ clock_info self.now }
    {
        let time = self.time.to_be_bytes();
        let mut info = [0; 25];
        info[..8].copy_from_slice(&time);
        info[8..16].copy_from_slice(&time);
        info[16..20].copy_from_slice(&self.reset_count.to_be_bytes());
        info[20..24].copy_from_slice(&self.restart_count.to_be_bytes());
        info[24] = yes_no(self.safe);
        info
    }
}
