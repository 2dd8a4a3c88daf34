//! PolicyNameHash (TPM 2.0 Part 3, TPM2_PolicyNameHash).

ghost use Rattle.std.specs.Prelude.{◌≡◌};
ghost use Rattle.tpm_bindings.specs.State.{SessionState};
ghost use Rattle.tpm_rules.specs.PolicyNameHash.{policy_name_hash_rule};
ghost use Rattle.tpm_rules.specs.Rule.{Obeys};
ghost use Rattle.tpm_rules.specs.Standing.{standing_of};

use crate::Standing;
use crate::rule::unless;
use crate::slot::takes_name_hash;
use tpol_base::response_code::CPHASH;
use tpol_base::{Digest32, Rc};

/// That the slot takes the digest: TPM_RC_CPHASH.
pub fn policy_name_hash_rule(session: &Standing, digest: &Digest32) -> Result<(), Rc>
    ensures rule { (state : SessionState) → session.now ≡ standing_of state
        → Obeys result (policy_name_hash_rule state digest.now) }
{
    unless(takes_name_hash(session, digest), CPHASH)
}
