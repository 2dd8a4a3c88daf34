//! PolicyLocality (TPM 2.0 Part 3, TPM2_PolicyLocality).

ghost use Rattle.std.specs.Prelude.{◌≡◌};
ghost use Rattle.tpm_bindings.specs.State.{SessionState};
ghost use Rattle.tpm_rules.specs.PolicyLocality.{is_locality_set, policy_locality_rule, shares_locality};
ghost use Rattle.tpm_rules.specs.Rule.{Obeys};
ghost use Rattle.tpm_rules.specs.Standing.{standing_of};

use crate::Standing;
use crate::rule::unless;
use tpol_base::Rc;
use tpol_base::response_code::{RANGE, of_parameter};

/// That the set has at least one of the localities 0 to 4 and no other, and shares one with all earlier
/// sets: TPM_RC_RANGE, parameter 1. Bit n is for locality n.
pub fn policy_locality_rule(session: &Standing, localities: u8) -> Result<(), Rc>
    ensures rule { (state : SessionState) → session.now ≡ standing_of state
        → Obeys result (policy_locality_rule state localities) }
{
    let holds = is_locality_set(localities) && shares_locality(session, localities);
    unless(holds, RANGE + of_parameter(1))
}

// Whether it has at least one of the localities 0 to 4 and no other.
fn is_locality_set(localities: u8) -> bool
    ensures { result ≡ is_locality_set localities }
{
    1 <= localities && localities <= 31
}

// Whether it shares a locality with all earlier sets.
fn shares_locality(session: &Standing, localities: u8) -> bool
    ensures { (state : SessionState) → session.now ≡ standing_of state
        → result ≡ shares_locality state localities }
{
    localities & session.bindings.localities() != 0
}
