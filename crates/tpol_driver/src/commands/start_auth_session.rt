//! StartAuthSession, and the nonces of the run's caller.

ghost use Rattle.std.specs.Prelude.{◌≡◌};
ghost use Rattle.tpol_driver.specs.Commands.{caller_nonce, start_command};

use tpol_base::Digest32;
use tpol_base::handle::TPM_RH_NULL;
use tpol_hash::Hasher;
use tpol_wire::Command;

/// The start of a policy session that is neither salted nor bound.
pub(crate) fn command(seed: &Digest32) -> Command
    ensures { result ≡ start_command seed.now }
{
    Command::StartAuthSession {
        tpm_key: TPM_RH_NULL,
        bind: TPM_RH_NULL,
        nonce: caller_nonce(seed, 0),
    }
}

/// The nonce of the caller of the run's command with this number, from 0: the hash of the seed and the number
/// in four bytes.
pub(crate) fn caller_nonce(seed: &Digest32, number: u32) -> Digest32
    ensures { result ≡ caller_nonce seed.now number }
{
    let mut hasher = Hasher::new();
    hasher.put(&seed.bytes);
    hasher.put(&number.to_be_bytes());
    hasher.done()
}
