//! PolicyPCR (TPM 2.0 Part 3, TPM2_PolicyPCR).

ghost use Rattle.std.specs.Prelude.{◌≡◌, ◌<◌, ◌^◌, length};
ghost use Rattle.tpm_pcr.specs.Pcrs.{selection_digest};
ghost use Rattle.tpm_policy.specs.Asserted.{asserted};
ghost use Rattle.tpm_rules.specs.PolicyPcr.{policy_pcr_fact, policy_pcr_rule};
ghost use Rattle.tpm_rules.specs.Rule.{Obeys};

use crate::session::{add_unbound, fact_of};
use std::alloc::Global;
use tpm_pcr::Pcrs;
use tpm_rules::policy_pcr_rule;
use tpm_session::Session;
use tpol_base::{Digest32, Digests, Rc};
use tpol_tree::Assertion;

/// Ties the session to the values of the selected PCRs as they are now, bit n of the mask for PCR n. Answers
/// TPM_RC_PCR_CHANGED where a PCR was extended since the session's first PolicyPCR, and TPM_RC_VALUE,
/// parameter 1, where a digest is given that is not theirs. The first PolicyPCR's update counter is kept.
pub fn assert_pcr(
    alloc: Global,
    session: &mut Session,
    event: u32,
    pcrs: &Pcrs,
    mask: u32,
    given: Option<Digest32>,
) -> Result<(), Rc>
    requires room { length session.old.state.facts < 512 }
    requires mask { mask < 2 ^ 24 }
    ensures rule { Obeys result
        (policy_pcr_rule session.old.state pcrs.now.counter
        (selection_digest pcrs.now.values mask) given) }
    ensures session { session.new
        ≡ asserted (policy_pcr_rule session.old.state pcrs.now.counter
        (selection_digest pcrs.now.values mask) given) session.old
        (policy_pcr_fact event mask (selection_digest pcrs.now.values mask)) pcrs.now.counter }
{
    let selected = pcrs.digest_of_selection(mask);
    assert_selected(alloc, session, event, pcrs, mask, selected, given)
}

/// `assert_pcr` for a caller that has the digest of the selected PCRs as they are now.
pub fn assert_selected(
    alloc: Global,
    session: &mut Session,
    event: u32,
    pcrs: &Pcrs,
    mask: u32,
    selected: Digest32,
    given: Option<Digest32>,
) -> Result<(), Rc>
    requires room { length session.old.state.facts < 512 }
    requires mask { mask < 2 ^ 24 }
    requires selected { selected ≡ selection_digest pcrs.now.values mask }
    ensures rule { Obeys result
        (policy_pcr_rule session.old.state pcrs.now.counter
        (selection_digest pcrs.now.values mask) given) }
    ensures session { session.new
        ≡ asserted (policy_pcr_rule session.old.state pcrs.now.counter
        (selection_digest pcrs.now.values mask) given) session.old
        (policy_pcr_fact event mask (selection_digest pcrs.now.values mask)) pcrs.now.counter }
{
    let counter = pcrs.counter();
    policy_pcr_rule(&session.standing(), counter, &selected, given)?;
    let assertion = Assertion::Pcr {
        mask,
        pcr_digest: selected,
        values: Digests::new(alloc),
    };
    add_unbound(session, fact_of(event, assertion), counter);
    Ok(())
}
