//! PolicySecret (TPM 2.0 Part 3, TPM2_PolicySecret).

ghost use Rattle.std.specs.Prelude.{◌≡◌, ◌^◌, ◌≤◌};
ghost use Rattle.tpm_bindings.specs.State.{SessionState};
ghost use Rattle.tpm_rules.specs.PolicySecret.{policy_secret_rule};
ghost use Rattle.tpm_rules.specs.Rule.{Obeys};
ghost use Rattle.tpm_rules.specs.Standing.{standing_of};

use crate::Standing;
use crate::deadline::{deadline_of, is_nonce_or_none};
use crate::rule::unless;
use crate::slot::takes_optional_cp_hash;
use tpm_bindings::is_before;
use tpol_base::response_code::{CPHASH, EXPIRED, NONCE, of_parameter};
use tpol_base::{Digest32, Rc};

/// That a nonce which is given is the session's (TPM_RC_NONCE, parameter 1), that the deadline has not passed
/// (TPM_RC_EXPIRED, parameter 4), and that the slot takes the cpHashA (TPM_RC_CPHASH). The time is in
/// milliseconds, the expiration in seconds.
pub fn policy_secret_rule(
    session: &Standing,
    time: u64,
    nonce: &[u8],
    cp_hash: Option<Digest32>,
    expiration: i32,
) -> Result<(), Rc>
    requires start { session.now.start ≤ 2 ^ 63 }
    ensures rule { (state : SessionState) → session.now ≡ standing_of state
        → Obeys result (policy_secret_rule state time nonce.now cp_hash expiration) }
{
    let deadline = deadline_of(session.start, nonce, expiration);
    unless(
        is_nonce_or_none(&session.nonce, nonce),
        NONCE + of_parameter(1),
    )?;
    unless(is_before(time, deadline), EXPIRED + of_parameter(4))?;
    unless(takes_optional_cp_hash(session, cp_hash), CPHASH)
}
