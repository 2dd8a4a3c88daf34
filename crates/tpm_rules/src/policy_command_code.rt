//! PolicyCommandCode (TPM 2.0 Part 3, TPM2_PolicyCommandCode).

ghost use Rattle.std.specs.Prelude.{◌≡◌};
ghost use Rattle.tpm_bindings.specs.State.{SessionState};
ghost use Rattle.tpm_rules.specs.PolicyCommandCode.{policy_command_code_rule};
ghost use Rattle.tpm_rules.specs.Rule.{Obeys};
ghost use Rattle.tpm_rules.specs.Standing.{standing_of};

use crate::Standing;
use crate::rule::unless;
use tpol_base::Rc;
use tpol_base::response_code::{VALUE, of_parameter};

/// That no other command code was set: TPM_RC_VALUE, parameter 1.
pub fn policy_command_code_rule(session: &Standing, code: u32) -> Result<(), Rc>
    ensures rule { (state : SessionState) → session.now ≡ standing_of state
        → Obeys result (policy_command_code_rule state code) }
{
    unless(session.bindings.every_code(code), VALUE + of_parameter(1))
}
