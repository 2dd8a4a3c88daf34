//! PolicyOR (TPM 2.0 Part 3, TPM2_PolicyOR).

ghost use Rattle.std.specs.Prelude.{◌≡◌, ◌<◌, length, None};
ghost use Rattle.tpm_policy.specs.Asserted.{with_one_more};
ghost use Rattle.tpm_rules.specs.PolicyOr.{policy_or_fact, policy_or_rule};
ghost use Rattle.tpm_rules.specs.Rule.{Obeys};

use tpm_policy::assert_or;
use tpm_rules::policy_or_rule;
use tpm_session::Session;
use tpol_base::{Digest32, Digests, Rc};

// That the session's digest is one of these (TPM_RC_VALUE, parameter 1).
pub fn rule(session: &Session, digests: &[Digest32]) -> Result<(), Rc>
    ensures rule { Obeys result (policy_or_rule session.now.state digests.now) }
{
    policy_or_rule(&session.standing(), digests)
}

// Goes on with the digest of all branches.
pub fn carry_out(session: &mut Session, number: u32, digests: Digests)
    requires room { length session.old.state.facts < 512 }
    requires rule { policy_or_rule session.old.state digests ≡ None }
    ensures session { session.new ≡ with_one_more session.old (policy_or_fact number digests) 0 }
{
    match assert_or(session, number, digests) {
        Ok(()) => {}
        Err(_) => unreachable!(),
    }
}
