//! PolicyAuthorizeNV (TPM 2.0 Part 3, TPM2_PolicyAuthorizeNV).

ghost use Rattle.std.specs.Prelude.{◌≡◌, ◌<◌, length};
ghost use Rattle.tpm_policy.specs.Asserted.{asserted};
ghost use Rattle.tpm_rules.specs.PolicyAuthorizeNv.{policy_authorize_nv_fact, policy_authorize_nv_rule};
ghost use Rattle.tpm_rules.specs.Rule.{Obeys};

use crate::session::add_unbound;
use tpm_rules::policy_authorize_nv_rule;
use tpm_session::Session;
use tpol_base::Rc;
use tpol_name::{IndexEntry, nv_name};
use tpol_tree::{Fact, Move};

/// Puts the index that holds the digest of the session's policy in the place of that policy. Answers
/// TPM_RC_NV_UNINITIALIZED where the index was never written, TPM_RC_HASH where its content does not begin
/// with the algorithm SHA-256, and TPM_RC_VALUE where the session's digest does not follow.
pub fn assert_authorize_nv(session: &mut Session, event: u32, entry: &IndexEntry) -> Result<(), Rc>
    requires room { length session.old.state.facts < 512 }
    ensures rule { Obeys result (policy_authorize_nv_rule session.old.state entry.now) }
    ensures session { session.new
        ≡ asserted (policy_authorize_nv_rule session.old.state entry.now) session.old
        (policy_authorize_nv_fact event session.old.state entry.now) 0 }
{
    let standing = session.standing();
    policy_authorize_nv_rule(&standing, entry)?;
    let act = Move::ApproveNv {
        index: nv_name(&entry.public),
        approved: standing.digest,
    };
    let fact = Fact {
        event,
        act,
        cp_hash: None,
        deadline: None,
    };
    add_unbound(session, fact, 0);
    Ok(())
}
