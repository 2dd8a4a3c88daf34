//! PolicyOR (TPM 2.0 Part 3, TPM2_PolicyOR).

ghost use Rattle.std.specs.Prelude.{◌≡◌};
ghost use Rattle.tpm_bindings.specs.State.{SessionState};
ghost use Rattle.tpm_rules.specs.PolicyOr.{policy_or_rule};
ghost use Rattle.tpm_rules.specs.Rule.{Obeys};
ghost use Rattle.tpm_rules.specs.Standing.{standing_of};

use crate::Standing;
use crate::rule::unless;
use tpol_base::response_code::{VALUE, of_parameter};
use tpol_base::{Digest32, Rc};

/// That the session's digest is one of these: TPM_RC_VALUE, parameter 1.
pub fn policy_or_rule(session: &Standing, digests: &[Digest32]) -> Result<(), Rc>
    ensures rule { (state : SessionState) → session.now ≡ standing_of state
        → Obeys result (policy_or_rule state digests.now) }
{
    unless(digests.contains(&session.digest), VALUE + of_parameter(1))
}
