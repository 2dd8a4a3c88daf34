//! PolicyCommandCode (TPM 2.0 Part 3, TPM2_PolicyCommandCode).

ghost use Rattle.std.specs.Prelude.{◌≡◌, ◌<◌, length};
ghost use Rattle.tpm_policy.specs.Asserted.{asserted};
ghost use Rattle.tpm_rules.specs.PolicyCommandCode.{policy_command_code_fact, policy_command_code_rule};
ghost use Rattle.tpm_rules.specs.Rule.{Obeys};

use crate::session::{add, fact_of};
use tpm_rules::policy_command_code_rule;
use tpm_session::Session;
use tpol_base::Rc;
use tpol_tree::Assertion;

/// Lets the session authorize the command of this code alone. Answers TPM_RC_VALUE, parameter 1, where another
/// code was set, by PolicyCommandCode or by PolicyDuplicationSelect.
pub fn assert_command_code(session: &mut Session, event: u32, code: u32) -> Result<(), Rc>
    requires room { length session.old.state.facts < 512 }
    ensures rule { Obeys result (policy_command_code_rule session.old.state code) }
    ensures session { session.new
        ≡ asserted (policy_command_code_rule session.old.state code) session.old
        (policy_command_code_fact event code) 0 }
{
    policy_command_code_rule(&session.standing(), code)?;
    add(session, fact_of(event, Assertion::CommandCode(code)), 0);
    Ok(())
}
