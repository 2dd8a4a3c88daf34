//! PolicyCpHash (TPM 2.0 Part 3, TPM2_PolicyCpHash).

ghost use Rattle.std.specs.Prelude.{◌≡◌, ◌<◌, length};
ghost use Rattle.tpm_policy.specs.Asserted.{asserted};
ghost use Rattle.tpm_rules.specs.PolicyCpHash.{policy_cp_hash_fact, policy_cp_hash_rule};
ghost use Rattle.tpm_rules.specs.Rule.{Obeys};

use crate::session::{add, fact_of};
use tpm_rules::policy_cp_hash_rule;
use tpm_session::Session;
use tpol_base::{Digest32, Rc};
use tpol_tree::Assertion;

/// Lets the session authorize the command with this cpHash alone. Answers TPM_RC_CPHASH where the slot holds
/// another cpHash, or a nameHash.
pub fn assert_cp_hash(session: &mut Session, event: u32, digest: Digest32) -> Result<(), Rc>
    requires room { length session.old.state.facts < 512 }
    ensures rule { Obeys result (policy_cp_hash_rule session.old.state digest) }
    ensures session { session.new
        ≡ asserted (policy_cp_hash_rule session.old.state digest) session.old
        (policy_cp_hash_fact event digest) 0 }
{
    policy_cp_hash_rule(&session.standing(), &digest)?;
    add(session, fact_of(event, Assertion::CpHash(digest)), 0);
    Ok(())
}
