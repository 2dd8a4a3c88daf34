//! PolicyNameHash (TPM 2.0 Part 3, TPM2_PolicyNameHash).

ghost use Rattle.std.specs.Prelude.{◌≡◌, ◌<◌, length};
ghost use Rattle.tpm_policy.specs.Asserted.{asserted};
ghost use Rattle.tpm_rules.specs.PolicyNameHash.{policy_name_hash_fact, policy_name_hash_rule};
ghost use Rattle.tpm_rules.specs.Rule.{Obeys};

use crate::session::{add, fact_of};
use tpm_rules::policy_name_hash_rule;
use tpm_session::Session;
use tpol_base::{Digest32, Rc};
use tpol_tree::Assertion;

/// Lets the session authorize a command whose handles' Names have this hash alone. Answers TPM_RC_CPHASH where
/// the slot holds another nameHash, or a cpHash.
pub fn assert_name_hash(session: &mut Session, event: u32, digest: Digest32) -> Result<(), Rc>
    requires room { length session.old.state.facts < 512 }
    ensures rule { Obeys result (policy_name_hash_rule session.old.state digest) }
    ensures session { session.new
        ≡ asserted (policy_name_hash_rule session.old.state digest) session.old
        (policy_name_hash_fact event digest) 0 }
{
    policy_name_hash_rule(&session.standing(), &digest)?;
    add(session, fact_of(event, Assertion::NameHash(digest)), 0);
    Ok(())
}
