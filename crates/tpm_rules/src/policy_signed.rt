//! PolicySigned (TPM 2.0 Part 3, TPM2_PolicySigned).

ghost use Rattle.std.specs.Prelude.{◌≡◌, ◌^◌, ◌≤◌};
ghost use Rattle.tpm_bindings.specs.State.{SessionState};
ghost use Rattle.tpm_rules.specs.PolicySigned.{policy_signed_rule};
ghost use Rattle.tpm_rules.specs.Rule.{Obeys};
ghost use Rattle.tpm_rules.specs.Standing.{standing_of};

use crate::Standing;
use crate::policy_secret::policy_secret_rule;
use crate::rule::unless;
use tpol_base::response_code::{SIGNATURE, of_parameter};
use tpol_base::{Digest32, Rc};

/// The rules of PolicySecret, and behind them that the signature is right, as the caller judges it
/// (TPM_RC_SIGNATURE, parameter 5).
pub fn policy_signed_rule(
    session: &Standing,
    time: u64,
    nonce: &[u8],
    cp_hash: Option<Digest32>,
    expiration: i32,
    right: bool,
) -> Result<(), Rc>
    requires start { session.now.start ≤ 2 ^ 63 }
    ensures rule { (state : SessionState) → session.now ≡ standing_of state
        → Obeys result (policy_signed_rule state time nonce.now cp_hash expiration right) }
{
    policy_secret_rule(session, time, nonce, cp_hash, expiration)?;
    unless(right, SIGNATURE + of_parameter(5))
}
