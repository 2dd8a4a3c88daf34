//! PolicyNV (TPM 2.0 Part 3, TPM2_PolicyNV).

ghost use Rattle.std.specs.Prelude.{◌≡◌, ◌<◌, length};
ghost use Rattle.tpm_policy.specs.Asserted.{asserted};
ghost use Rattle.tpm_rules.specs.PolicyNv.{policy_nv_fact, policy_nv_rule};
ghost use Rattle.tpm_rules.specs.Rule.{Obeys};

use crate::session::{add_unbound, fact_of};
use tpm_rules::policy_nv_rule;
use tpm_session::Session;
use tpol_base::{Blob, Compare, Rc};
use tpol_name::{IndexEntry, nv_name};
use tpol_tree::Assertion;

/// Compares the content of an index, from `offset` on, with the operand. The content has as many bytes as the
/// public area says. Answers TPM_RC_NV_UNINITIALIZED where the index was never written, TPM_RC_VALUE,
/// parameter 2, and TPM_RC_SIZE, parameter 1, where the offset or the operand from there on reaches past its
/// end, and TPM_RC_POLICY where the comparison does not hold.
pub fn assert_nv(
    session: &mut Session,
    event: u32,
    entry: &IndexEntry,
    operand: Blob,
    offset: u16,
    operation: Compare,
) -> Result<(), Rc>
    requires room { length session.old.state.facts < 512 }
    requires content { length entry.now.content ≡ entry.now.public.size }
    ensures rule { Obeys result (policy_nv_rule entry.now operand offset operation) }
    ensures session { session.new
        ≡ asserted (policy_nv_rule entry.now operand offset operation) session.old
        (policy_nv_fact event entry.now operand offset operation) 0 }
{
    policy_nv_rule(entry, operand.as_slice(), offset, operation)?;
    let assertion = Assertion::Nv {
        index: nv_name(&entry.public),
        operand,
        offset,
        operation,
    };
    add_unbound(session, fact_of(event, assertion), 0);
    Ok(())
}
