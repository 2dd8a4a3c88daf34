//! PolicyOR (TPM 2.0 Part 3, TPM2_PolicyOR).

ghost use Rattle.std.specs.Prelude.{◌≡◌, ◌<◌, length};
ghost use Rattle.tpm_policy.specs.Asserted.{asserted};
ghost use Rattle.tpm_rules.specs.PolicyOr.{policy_or_fact, policy_or_rule};
ghost use Rattle.tpm_rules.specs.Rule.{Obeys};

use crate::session::add_unbound;
use tpm_rules::policy_or_rule;
use tpm_session::Session;
use tpol_base::{Digests, Rc};
use tpol_tree::{Fact, Move};

/// Goes on with the digest of all branches where the session's digest is one of them. Answers TPM_RC_VALUE,
/// parameter 1, where it is none.
pub fn assert_or(session: &mut Session, event: u32, digests: Digests) -> Result<(), Rc>
    requires room { length session.old.state.facts < 512 }
    ensures rule { Obeys result (policy_or_rule session.old.state digests) }
    ensures session { session.new
        ≡ asserted (policy_or_rule session.old.state digests) session.old
        (policy_or_fact event digests) 0 }
{
    policy_or_rule(&session.standing(), digests.as_slice())?;
    let fact = Fact {
        event,
        act: Move::Or(digests),
        cp_hash: None,
        deadline: None,
    };
    add_unbound(session, fact, 0);
    Ok(())
}
