//! PolicyNameHash (TPM 2.0 Part 3, TPM2_PolicyNameHash).

ghost use Rattle.std.specs.Prelude.{◌≡◌, ◌<◌, length, None};
ghost use Rattle.tpm_policy.specs.Asserted.{with_one_more};
ghost use Rattle.tpm_rules.specs.PolicyNameHash.{policy_name_hash_fact, policy_name_hash_rule};
ghost use Rattle.tpm_rules.specs.Rule.{Obeys};

use tpm_policy::assert_name_hash;
use tpm_rules::policy_name_hash_rule;
use tpm_session::Session;
use tpol_base::{Digest32, Rc};

// That the slot takes the digest (TPM_RC_CPHASH).
pub fn rule(session: &Session, digest: &Digest32) -> Result<(), Rc>
    ensures rule { Obeys result (policy_name_hash_rule session.now.state digest.now) }
{
    policy_name_hash_rule(&session.standing(), digest)
}

// Lets the session authorize a command whose handles' Names have this hash alone.
pub fn carry_out(session: &mut Session, number: u32, digest: Digest32)
    requires room { length session.old.state.facts < 512 }
    requires rule { policy_name_hash_rule session.old.state digest ≡ None }
    ensures session { session.new
        ≡ with_one_more session.old (policy_name_hash_fact number digest) 0 }
{
    match assert_name_hash(session, number, digest) {
        Ok(()) => {}
        Err(_) => unreachable!(),
    }
}
