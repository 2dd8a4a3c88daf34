//! PolicyCounterTimer (TPM 2.0 Part 3, TPM2_PolicyCounterTimer).

ghost use Rattle.tpm_rules.specs.PolicyCounterTimer.{policy_counter_timer_rule};
ghost use Rattle.tpm_rules.specs.Rule.{Obeys};

use crate::policy_nv::{compares, fits};
use crate::rule::unless;
use tpm_pcr::Clock;
use tpol_base::response_code::{POLICY, RANGE, of_parameter};
use tpol_base::{Compare, Rc};

/// That the operand, from the offset on, lies within the 25 bytes of the clock (TPM_RC_RANGE, parameter 1),
/// and that the comparison with it holds (TPM_RC_POLICY).
pub fn policy_counter_timer_rule(
    clock: &Clock,
    operand: &[u8],
    offset: u16,
    operation: Compare,
) -> Result<(), Rc>
    ensures rule { Obeys result (policy_counter_timer_rule clock.now operand.now offset operation) }
{
    let info = clock.info();
    unless(fits(info.len(), offset, operand), RANGE + of_parameter(1))?;
    unless(compares(operation, &info, offset, operand), POLICY)
}
