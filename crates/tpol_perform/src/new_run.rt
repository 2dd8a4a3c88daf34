//! Runs that are to begin.

ghost use Rattle.std.specs.Prelude.{◌≡◌};
ghost use Rattle.tpol_perform.specs.NewRuns.{run_seed};

use tpol_base::Digest32;
use tpol_goal::{Goal, Grants};
use tpol_hash::Hasher;

/// A run that a client is to begin: its number, the client and from which locality it sends, what it wants, and
/// what it may use.
#[derive(Drop)]
pub struct NewRun {
    pub number: u16,
    pub client: u32,
    pub locality: u8,
    pub goal: Goal,
    pub grants: Grants,
}

// The seed of a run's nonces.
pub(crate) fn run_seed(seed: &Digest32, number: u16) -> Digest32
    ensures { result ≡ run_seed seed.now number }
{
    let mut hasher = Hasher::new();
    hasher.put(&seed.bytes);
    hasher.put("CALL".as_bytes());
    hasher.put(&u32::from(number).to_be_bytes());
    hasher.done()
}
