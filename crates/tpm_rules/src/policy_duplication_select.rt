//! PolicyDuplicationSelect (TPM 2.0 Part 3, TPM2_PolicyDuplicationSelect).

ghost use Rattle.std.specs.Prelude.{◌≡◌};
ghost use Rattle.tpm_bindings.specs.State.{SessionState};
ghost use Rattle.tpm_rules.specs.PolicyDuplicationSelect.{policy_duplication_select_rule};
ghost use Rattle.tpm_rules.specs.Rule.{Obeys};
ghost use Rattle.tpm_rules.specs.Standing.{standing_of};

use crate::Standing;
use crate::rule::unless;
use crate::slot::is_slot_set;
use tpol_base::Rc;
use tpol_base::response_code::{COMMAND_CODE, CPHASH};

/// That the slot is empty (TPM_RC_CPHASH), and that no command code was set (TPM_RC_COMMAND_CODE).
pub fn policy_duplication_select_rule(session: &Standing) -> Result<(), Rc>
    ensures rule { (state : SessionState) → session.now ≡ standing_of state
        → Obeys result (policy_duplication_select_rule state) }
{
    unless(!is_slot_set(session), CPHASH)?;
    unless(!session.bindings.sets_code(), COMMAND_CODE)
}
