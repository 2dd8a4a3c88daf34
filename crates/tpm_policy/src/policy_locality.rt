//! PolicyLocality (TPM 2.0 Part 3, TPM2_PolicyLocality).

ghost use Rattle.std.specs.Prelude.{◌≡◌, ◌<◌, length};
ghost use Rattle.tpm_policy.specs.Asserted.{asserted};
ghost use Rattle.tpm_rules.specs.PolicyLocality.{policy_locality_fact, policy_locality_rule};
ghost use Rattle.tpm_rules.specs.Rule.{Obeys};

use crate::session::{add, fact_of};
use tpm_rules::policy_locality_rule;
use tpm_session::Session;
use tpol_base::Rc;
use tpol_tree::Assertion;

/// Lets the session be used from these localities alone, bit n for locality n. Answers TPM_RC_RANGE, parameter 1,
/// where the set is empty or has others than 0 to 4, or shares no locality with all earlier sets.
pub fn assert_locality(session: &mut Session, event: u32, localities: u8) -> Result<(), Rc>
    requires room { length session.old.state.facts < 512 }
    ensures rule { Obeys result (policy_locality_rule session.old.state localities) }
    ensures session { session.new
        ≡ asserted (policy_locality_rule session.old.state localities) session.old
        (policy_locality_fact event localities) 0 }
{
    policy_locality_rule(&session.standing(), localities)?;
    add(session, fact_of(event, Assertion::Locality(localities)), 0);
    Ok(())
}
