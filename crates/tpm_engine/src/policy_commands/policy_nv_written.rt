//! PolicyNvWritten (TPM 2.0 Part 3, TPM2_PolicyNvWritten).

ghost use Rattle.std.specs.Prelude.{◌≡◌, ◌<◌, length, None};
ghost use Rattle.tpm_policy.specs.Asserted.{with_one_more};
ghost use Rattle.tpm_rules.specs.PolicyNvWritten.{policy_nv_written_fact, policy_nv_written_rule};
ghost use Rattle.tpm_rules.specs.Rule.{Obeys};

use tpm_policy::assert_nv_written;
use tpm_rules::policy_nv_written_rule;
use tpm_session::Session;
use tpol_base::Rc;

// That the other state was not set (TPM_RC_VALUE, parameter 1).
pub fn rule(session: &Session, written: bool) -> Result<(), Rc>
    ensures rule { Obeys result (policy_nv_written_rule session.now.state written) }
{
    policy_nv_written_rule(&session.standing(), written)
}

// Lets the session authorize a use of an index that was written, or of one that was not.
pub fn carry_out(session: &mut Session, number: u32, written: bool)
    requires room { length session.old.state.facts < 512 }
    requires rule { policy_nv_written_rule session.old.state written ≡ None }
    ensures session { session.new
        ≡ with_one_more session.old (policy_nv_written_fact number written) 0 }
{
    match assert_nv_written(session, number, written) {
        Ok(()) => {}
        Err(_) => unreachable!(),
    }
}
