//! PolicyCommandCode (TPM 2.0 Part 3, TPM2_PolicyCommandCode).

ghost use Rattle.std.specs.Prelude.{◌≡◌, ◌<◌, length, None};
ghost use Rattle.tpm_policy.specs.Asserted.{with_one_more};
ghost use Rattle.tpm_rules.specs.PolicyCommandCode.{policy_command_code_fact, policy_command_code_rule};
ghost use Rattle.tpm_rules.specs.Rule.{Obeys};

use tpm_policy::assert_command_code;
use tpm_rules::policy_command_code_rule;
use tpm_session::Session;
use tpol_base::Rc;

// That no other command code was set (TPM_RC_VALUE, parameter 1).
pub fn rule(session: &Session, code: u32) -> Result<(), Rc>
    ensures rule { Obeys result (policy_command_code_rule session.now.state code) }
{
    policy_command_code_rule(&session.standing(), code)
}

// Lets the session authorize the command of this code alone.
pub fn carry_out(session: &mut Session, number: u32, code: u32)
    requires room { length session.old.state.facts < 512 }
    requires rule { policy_command_code_rule session.old.state code ≡ None }
    ensures session { session.new
        ≡ with_one_more session.old (policy_command_code_fact number code) 0 }
{
    match assert_command_code(session, number, code) {
        Ok(()) => {}
        Err(_) => unreachable!(),
    }
}
