//! PolicyNvWritten (TPM 2.0 Part 3, TPM2_PolicyNvWritten).

ghost use Rattle.std.specs.Prelude.{◌≡◌};
ghost use Rattle.tpm_bindings.specs.State.{SessionState};
ghost use Rattle.tpm_rules.specs.PolicyNvWritten.{policy_nv_written_rule};
ghost use Rattle.tpm_rules.specs.Rule.{Obeys};
ghost use Rattle.tpm_rules.specs.Standing.{standing_of};

use crate::Standing;
use crate::rule::unless;
use tpol_base::Rc;
use tpol_base::response_code::{VALUE, of_parameter};

/// That the other state was not set: TPM_RC_VALUE, parameter 1.
pub fn policy_nv_written_rule(session: &Standing, written: bool) -> Result<(), Rc>
    ensures rule { (state : SessionState) → session.now ≡ standing_of state
        → Obeys result (policy_nv_written_rule state written) }
{
    unless(
        session.bindings.every_written(written),
        VALUE + of_parameter(1),
    )
}
