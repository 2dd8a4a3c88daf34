//! The deferred checks over a session of the machine.

ghost use Rattle.std.specs.Prelude.{◌≡◌};
ghost use Rattle.tpm_deferred.specs.Attempts.{broken_check, use_of};
ghost use Rattle.tpm_rules.specs.Rule.{Breaks};

use crate::Attempt;
use tpm_rules::{Field, Use};
use tpm_session::Session;
use tpol_base::Check;

/// The first deferred check that this attempt to use the session breaks, in the order of `Check`; no error
/// exactly where all ten hold (TPM 2.0 Part 1, "Policy Session Use").
pub fn check_use(session: &Session, attempt: &Attempt<'_>) -> Result<(), Check>
    ensures checks { Breaks result (broken_check session.now.state attempt.now) }
{
    let field = Field {
        hmac: attempt.hmac,
        cp_hash: attempt.cp_hash,
        nonce_caller: attempt.nonce_caller,
        nonce_tpm: session.nonce(),
        attributes: attempt.attributes,
    };
    let right = field.proves(attempt.auth_value, session.bindings().last_auth());
    tpm_rules::check_use(
        &session.standing(),
        &use_of(attempt),
        attempt.auth_policy,
        right,
    )
}

// What the session is used for.
fn use_of(attempt: &Attempt<'_>) -> Use
    ensures { result ≡ use_of attempt.now }
{
    Use {
        code: attempt.code,
        duplicate_role: attempt.duplicate_role,
        cp_hash: attempt.cp_hash,
        name_hash: attempt.name_hash,
        locality: attempt.locality,
        presence: attempt.presence,
        time: attempt.time,
        pcr_counter: attempt.pcr_counter,
        written: attempt.nv_written,
    }
}
