//! PolicyAuthorize (TPM 2.0 Part 3, TPM2_PolicyAuthorize).

ghost use Rattle.std.specs.Prelude.{◌≡◌};
ghost use Rattle.tpm_bindings.specs.State.{SessionState};
ghost use Rattle.tpm_rules.specs.PolicyAuthorize as spec;
ghost use Rattle.tpm_rules.specs.Rule.{Obeys};
ghost use Rattle.tpm_rules.specs.Standing.{standing_of};

use crate::Standing;
use crate::rule::unless;
use tpol_base::response_code::{VALUE, of_parameter};
use tpol_base::{Digest32, Rc};
use tpol_hash::Hasher;

/// That the session's digest is the approved one (TPM_RC_VALUE, parameter 1), and that the ticket is right, as
/// the caller judges it: its tag, its hierarchy and its digest (TPM_RC_VALUE, parameter 4).
pub fn policy_authorize_rule(session: &Standing, approved: &Digest32, right: bool) -> Result<(), Rc>
    ensures rule { (state : SessionState) → session.now ≡ standing_of state
        → Obeys result (spec.policy_authorize_rule state approved.now right) }
{
    unless(session.digest == *approved, VALUE + of_parameter(1))?;
    unless(right, VALUE + of_parameter(4))
}

/// What the approving key has signed, aHash: the hash of the approved policy's digest and the policyRef.
pub fn approval_hash(approved: &Digest32, policy_ref: &[u8]) -> Digest32
    ensures hash { result ≡ spec.approval_hash approved.now policy_ref.now }
{
    let mut hasher = Hasher::new();
    hasher.put(&approved.bytes);
    hasher.put(policy_ref);
    hasher.done()
}
