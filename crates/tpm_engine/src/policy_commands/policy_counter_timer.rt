//! PolicyCounterTimer (TPM 2.0 Part 3, TPM2_PolicyCounterTimer).

ghost use Rattle.std.specs.Prelude.{◌≡◌, ◌<◌, length, None};
ghost use Rattle.tpm_policy.specs.Asserted.{with_one_more};
ghost use Rattle.tpm_rules.specs.PolicyCounterTimer.{policy_counter_timer_fact, policy_counter_timer_rule};
ghost use Rattle.tpm_rules.specs.Rule.{Obeys};
ghost use Rattle.tpm_world.specs.World.{clock_of};

use tpm_policy::assert_counter_timer;
use tpm_rules::policy_counter_timer_rule;
use tpm_session::Session;
use tpm_world::World;
use tpol_base::{Blob, Compare, Rc};

// That the operand, from the offset on, lies within the bytes of the clock (TPM_RC_RANGE, parameter 1), and that
// the comparison with it holds (TPM_RC_POLICY).
pub fn rule(world: &World, operand: &[u8], offset: u16, operation: Compare) -> Result<(), Rc>
    ensures rule { Obeys result
        (policy_counter_timer_rule (clock_of world.now) operand.now offset operation) }
{
    policy_counter_timer_rule(&world.clock(), operand, offset, operation)
}

// Compares the bytes of the clock, from the offset on, with the operand.
pub fn carry_out(
    world: &World,
    session: &mut Session,
    number: u32,
    operand: Blob,
    offset: u16,
    operation: Compare,
)
    requires room { length session.old.state.facts < 512 }
    requires rule { policy_counter_timer_rule (clock_of world.now) operand offset operation ≡ None }
    ensures session { session.new ≡ with_one_more session.old
        (policy_counter_timer_fact number operand offset operation) 0 }
{
    match assert_counter_timer(session, number, &world.clock(), operand, offset, operation) {
        Ok(()) => {}
        Err(_) => unreachable!(),
    }
}
