//! PolicyCounterTimer (TPM 2.0 Part 3, TPM2_PolicyCounterTimer).

ghost use Rattle.std.specs.Prelude.{◌≡◌, ◌<◌, length};
ghost use Rattle.tpm_policy.specs.Asserted.{asserted};
ghost use Rattle.tpm_rules.specs.PolicyCounterTimer.{policy_counter_timer_fact, policy_counter_timer_rule};
ghost use Rattle.tpm_rules.specs.Rule.{Obeys};

use crate::session::{add_unbound, fact_of};
use tpm_pcr::Clock;
use tpm_rules::policy_counter_timer_rule;
use tpm_session::Session;
use tpol_base::{Blob, Compare, Rc};
use tpol_tree::Assertion;

/// Compares the bytes of the clock, from `offset` on, with the operand. Answers TPM_RC_RANGE, parameter 1, where
/// the operand reaches past their end, and TPM_RC_POLICY where the comparison does not hold.
pub fn assert_counter_timer(
    session: &mut Session,
    event: u32,
    clock: &Clock,
    operand: Blob,
    offset: u16,
    operation: Compare,
) -> Result<(), Rc>
    requires room { length session.old.state.facts < 512 }
    ensures rule { Obeys result (policy_counter_timer_rule clock.now operand offset operation) }
    ensures session { session.new
        ≡ asserted (policy_counter_timer_rule clock.now operand offset operation) session.old
        (policy_counter_timer_fact event operand offset operation) 0 }
{
    policy_counter_timer_rule(clock, operand.as_slice(), offset, operation)?;
    add_unbound(
        session,
        fact_of(
            event,
            Assertion::CounterTimer {
                operand,
                offset,
                operation,
            },
        ),
        0,
    );
    Ok(())
}
