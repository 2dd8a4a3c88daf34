//! Passwords.

ghost use Rattle.std.specs.Prelude.{◌≡◌};
ghost use Rattle.tpm_auth.specs.Passwords.{is_password};

use tpol_base::without_trailing_zeros;

/// Whether the value that was given is the authorization value. Zero bytes at the end of both do not count
/// (TPM 2.0 Part 1, "Authorization Values and Trailing Zeros").
pub fn check_password(auth: &[u8], given: &[u8]) -> bool
    ensures password { result ≡ is_password auth.now given.now }
{
    without_trailing_zeros(auth) == without_trailing_zeros(given)
}
