//! PolicyPCR (TPM 2.0 Part 3, TPM2_PolicyPCR).

ghost use Rattle.std.specs.Prelude.{◌≡◌, ◌<◌, ◌^◌, length, None, true};
ghost use Rattle.tpm_engine.specs.PolicyCommands as spec;
ghost use Rattle.tpm_pcr.specs.Pcrs.{selection_digest};
ghost use Rattle.tpm_policy.specs.Asserted.{with_one_more};
ghost use Rattle.tpm_rules.specs.PolicyPcr.{is_digest_or_none, policy_pcr_fact};
ghost use Rattle.tpm_rules.specs.Rule.{Obeys};

use std::alloc::Global;
use tpm_policy::assert_selected;
use tpm_rules::policy_pcr_rule;
use tpm_session::Session;
use tpm_world::World;
use tpol_base::{Digest32, Rc};

// That no PCR was extended since the session's first PolicyPCR (TPM_RC_PCR_CHANGED), and that a digest that is
// given is that of the selected PCRs as they are now (TPM_RC_VALUE, parameter 1).
pub fn rule(world: &World, session: &Session, given: Option<Digest32>, mask: u32) -> Result<(), Rc>
    ensures rule { Obeys result (spec.pcr_rule world.now session.now.state given mask) }
{
    let pcrs = world.pcrs();
    let selected = match given {
        Some(_) => pcrs.digest_of_selection(mask),
        // It is compared with nothing.
        None => Digest32::ZERO,
    };
    policy_pcr_rule(&session.standing(), pcrs.counter(), &selected, given)
}

// Ties the session to the selected PCRs as they are now.
pub fn carry_out(
    alloc: Global,
    world: &World,
    session: &mut Session,
    number: u32,
    given: Option<Digest32>,
    mask: u32,
)
    requires room { length session.old.state.facts < 512 }
    requires mask { mask < 2 ^ 24 }
    requires rule { spec.pcr_rule world.now session.old.state given mask ≡ None }
    ensures session { session.new ≡ with_one_more session.old
        (policy_pcr_fact number mask (selection_digest world.now.pcrs.values mask))
        world.now.pcrs.counter }
{
    let selected = selected_digest(world, given, mask);
    match assert_selected(alloc, session, number, world.pcrs(), mask, selected, given) {
        Ok(()) => {}
        Err(_) => unreachable!(),
    }
}

// The digest of the selected PCRs: where a digest is given, the rule has found that it is theirs.
fn selected_digest(world: &World, given: Option<Digest32>, mask: u32) -> Digest32
    requires given { is_digest_or_none (selection_digest world.now.pcrs.values mask) given ≡ true }
    ensures digest { result ≡ selection_digest world.now.pcrs.values mask }
{
    match given {
        Some(digest) => digest,
        None => world.pcrs().digest_of_selection(mask),
    }
}
