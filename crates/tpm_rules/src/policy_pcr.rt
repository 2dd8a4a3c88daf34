//! PolicyPCR (TPM 2.0 Part 3, TPM2_PolicyPCR).

ghost use Rattle.std.specs.Prelude.{◌≡◌};
ghost use Rattle.tpm_bindings.specs.State.{SessionState};
ghost use Rattle.tpm_rules.specs.PolicyPcr.{is_digest_or_none, policy_pcr_rule};
ghost use Rattle.tpm_rules.specs.Rule.{Obeys};
ghost use Rattle.tpm_rules.specs.Session.{is_counter_now};
ghost use Rattle.tpm_rules.specs.Standing.{standing_of};

use crate::Standing;
use crate::rule::unless;
use tpol_base::response_code::{PCR_CHANGED, VALUE, of_parameter};
use tpol_base::{Digest32, Rc};

/// That no PCR was extended since the session's first PolicyPCR (TPM_RC_PCR_CHANGED), and that a digest that
/// is given is that of the selected PCRs as they are now (TPM_RC_VALUE, parameter 1).
pub fn policy_pcr_rule(
    session: &Standing,
    counter: u32,
    selected: &Digest32,
    given: Option<Digest32>,
) -> Result<(), Rc>
    ensures rule { (state : SessionState) → session.now ≡ standing_of state
        → Obeys result (policy_pcr_rule state counter selected.now given) }
{
    unless(is_counter_now(session.counter, counter), PCR_CHANGED)?;
    unless(is_digest_or_none(selected, given), VALUE + of_parameter(1))
}

// Whether the PCR counter is the one that the first PolicyPCR found, if there was one.
pub fn is_counter_now(first: Option<u32>, counter: u32) -> bool
    ensures { result ≡ is_counter_now first counter }
{
    match first {
        None => true,
        Some(first) => first == counter,
    }
}

// Whether a digest is this one, or is left out.
fn is_digest_or_none(digest: &Digest32, given: Option<Digest32>) -> bool
    ensures { result ≡ is_digest_or_none digest.now given }
{
    match given {
        None => true,
        Some(given) => given == *digest,
    }
}
