//! PolicyDuplicationSelect (TPM 2.0 Part 3, TPM2_PolicyDuplicationSelect).

ghost use Rattle.std.specs.Prelude.{◌≡◌, ◌<◌, length, None};
ghost use Rattle.tpm_policy.specs.Asserted.{with_one_more};
ghost use Rattle.tpm_rules.specs.PolicyDuplicationSelect.{policy_duplication_select_fact, policy_duplication_select_rule};
ghost use Rattle.tpm_rules.specs.Rule.{Obeys};

use tpm_policy::assert_duplication;
use tpm_rules::policy_duplication_select_rule;
use tpm_session::Session;
use tpol_base::{Name, Rc};

// That the slot is empty (TPM_RC_CPHASH), and that no command code was set (TPM_RC_COMMAND_CODE).
pub fn rule(session: &Session) -> Result<(), Rc>
    ensures rule { Obeys result (policy_duplication_select_rule session.now.state) }
{
    policy_duplication_select_rule(&session.standing())
}

// Ties the session to Duplicate of this object to this new parent.
pub fn carry_out(session: &mut Session, number: u32, object: Name, parent: Name, include: bool)
    requires room { length session.old.state.facts < 512 }
    requires rule { policy_duplication_select_rule session.old.state ≡ None }
    ensures session { session.new ≡ with_one_more session.old
        (policy_duplication_select_fact number object parent include) 0 }
{
    match assert_duplication(session, number, object, parent, include) {
        Ok(()) => {}
        Err(_) => unreachable!(),
    }
}
