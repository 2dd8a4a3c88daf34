//! PolicyNvWritten (TPM 2.0 Part 3, TPM2_PolicyNvWritten).

ghost use Rattle.std.specs.Prelude.{◌≡◌, ◌<◌, length};
ghost use Rattle.tpm_policy.specs.Asserted.{asserted};
ghost use Rattle.tpm_rules.specs.PolicyNvWritten.{policy_nv_written_fact, policy_nv_written_rule};
ghost use Rattle.tpm_rules.specs.Rule.{Obeys};

use crate::session::{add, fact_of};
use tpm_rules::policy_nv_written_rule;
use tpm_session::Session;
use tpol_base::Rc;
use tpol_tree::Assertion;

/// Lets the session authorize a use of an index that was written, or of one that was not. Answers TPM_RC_VALUE,
/// parameter 1, where the other was asked for.
pub fn assert_nv_written(session: &mut Session, event: u32, written: bool) -> Result<(), Rc>
    requires room { length session.old.state.facts < 512 }
    ensures rule { Obeys result (policy_nv_written_rule session.old.state written) }
    ensures session { session.new
        ≡ asserted (policy_nv_written_rule session.old.state written) session.old
        (policy_nv_written_fact event written) 0 }
{
    policy_nv_written_rule(&session.standing(), written)?;
    add(session, fact_of(event, Assertion::NvWritten(written)), 0);
    Ok(())
}
