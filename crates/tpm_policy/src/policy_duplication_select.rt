//! PolicyDuplicationSelect (TPM 2.0 Part 3, TPM2_PolicyDuplicationSelect).

ghost use Rattle.std.specs.Prelude.{◌≡◌, ◌<◌, length};
ghost use Rattle.tpm_policy.specs.Asserted.{asserted};
ghost use Rattle.tpm_rules.specs.PolicyDuplicationSelect.{policy_duplication_select_fact, policy_duplication_select_rule};
ghost use Rattle.tpm_rules.specs.Rule.{Obeys};

use crate::session::{add, fact_of};
use tpm_rules::policy_duplication_select_rule;
use tpm_session::Session;
use tpol_base::{Name, Rc};
use tpol_tree::Assertion;

/// Ties the session to Duplicate of this object to this new parent; `include` says whether the object's Name is
/// part of the policy's digest too. Answers TPM_RC_CPHASH where the slot is set, and TPM_RC_COMMAND_CODE where a
/// command code is.
pub fn assert_duplication(
    session: &mut Session,
    event: u32,
    object: Name,
    parent: Name,
    include: bool,
) -> Result<(), Rc>
    requires room { length session.old.state.facts < 512 }
    ensures rule { Obeys result (policy_duplication_select_rule session.old.state) }
    ensures session { session.new
        ≡ asserted (policy_duplication_select_rule session.old.state) session.old
        (policy_duplication_select_fact event object parent include) 0 }
{
    policy_duplication_select_rule(&session.standing())?;
    add(
        session,
        fact_of(
            event,
            Assertion::Duplication {
                object,
                parent,
                include,
            },
        ),
        0,
    );
    Ok(())
}
