//! Authorization by a password (TPM 2.0 Part 1, "Password Authorizations").

ghost use Rattle.std.specs.Prelude.{◌≡◌};
ghost use Rattle.tpm_rules.specs.EntityView.{entity_of};
ghost use Rattle.tpm_rules.specs.Password as spec;

use crate::entity::is_duplicate;
use crate::{Denial, Entity};
use tpm_auth::check_password;
use tpol_base::response_code::{AUTH_FAIL, AUTH_TYPE, AUTH_UNAVAILABLE, BAD_AUTH, of_session};

/// Why a password does not authorize the command of this code: the entity's value is not available for it, or
/// is another one. `None` exactly where it authorizes it.
pub fn password_denial(entity: &Entity<'_>, code: u32, given: &[u8]) -> Option<Denial>
    ensures denial { result ≡ spec.password_denial (entity_of entity.now) code given.now }
{
    if !entity.is_password_available(code) {
        Some(Denial::Unavailable)
    } else if !check_password(entity.auth_value(), given) {
        Some(Denial::Password)
    } else {
        None
    }
}

/// The response code where a password is not available for the command of this code.
pub fn unavailable_password_code(code: u32) -> u32
    ensures code { result ≡ spec.unavailable_password_code code }
{
    if is_duplicate(code) {
        AUTH_TYPE
    } else {
        AUTH_UNAVAILABLE
    }
}

/// The response code where the password is wrong: AUTH_FAIL, or BAD_AUTH where the entity is outside the
/// protection against dictionary attacks, of session 1.
pub fn wrong_password_code(entity: &Entity<'_>) -> u32
    ensures code { result ≡ spec.wrong_password_code (entity_of entity.now) }
{
    let code = if entity.is_da_protected() {
        AUTH_FAIL
    } else {
        BAD_AUTH
    };
    code + of_session(1)
}
