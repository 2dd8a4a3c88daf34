//! PolicyLocality (TPM 2.0 Part 3, TPM2_PolicyLocality).

ghost use Rattle.std.specs.Prelude.{◌≡◌, ◌<◌, length, None};
ghost use Rattle.tpm_policy.specs.Asserted.{with_one_more};
ghost use Rattle.tpm_rules.specs.PolicyLocality.{policy_locality_fact, policy_locality_rule};
ghost use Rattle.tpm_rules.specs.Rule.{Obeys};

use tpm_policy::assert_locality;
use tpm_rules::policy_locality_rule;
use tpm_session::Session;
use tpol_base::Rc;

// That the set has localities from 0 to 4 alone, at least one, and shares one with all earlier sets
// (TPM_RC_RANGE, parameter 1). Bit n is for locality n.
pub fn rule(session: &Session, localities: u8) -> Result<(), Rc>
    ensures rule { Obeys result (policy_locality_rule session.now.state localities) }
{
    policy_locality_rule(&session.standing(), localities)
}

// Lets the session be used from these localities alone.
pub fn carry_out(session: &mut Session, number: u32, localities: u8)
    requires room { length session.old.state.facts < 512 }
    requires rule { policy_locality_rule session.old.state localities ≡ None }
    ensures session { session.new
        ≡ with_one_more session.old (policy_locality_fact number localities) 0 }
{
    match assert_locality(session, number, localities) {
        Ok(()) => {}
        Err(_) => unreachable!(),
    }
}
