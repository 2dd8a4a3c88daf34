//! The lines of openings and of their certificates.

ghost use Rattle.std.specs.Prelude.{◌≡◌, true, All, IfSome, OnOk, Some};
ghost use Rattle.tpol_digest.specs.Digest.{digest_of_moves, policy_digest};
ghost use Rattle.tpol_digest.specs.Limits.{AreWithinLimits};
ghost use Rattle.tpol_digest.specs.Paths.{paths_of};
ghost use Rattle.tpol_digest.specs.Sound.{IsSound};
ghost use Rattle.tpol_tree.specs.Facts.{moves_of as moves_of_facts};
ghost use Rattle.tpol_lines.specs.OpeningLine.{IsListed};
ghost use Rattle.tpol_perform.specs.CommandsTold.{certificate_of_opening, entity_opened, policy_opened, with_certificate, with_opening_of};
ghost use Rattle.tpol_perform.specs.Meeting.{MeetsPolicy};
ghost use Rattle.tpol_prepare.specs.Manner.{certifies};
ghost use Rattle.tpol_prepare.specs.Scenario.{IsWalkable};

use crate::performance::Performance;
use std::alloc::Global;
use tpm_engine::Opened;
use tpol_base::NoMemory;
use tpol_cert::certify;
use tpol_lines::{certificate_line, opening_line};
use tpol_prepare::Scenario;
use tpol_steps::CompiledDocument;
use tpol_trace::{Opening, opening_with_memo};
use tpol_tree::{Approvals, Closed, Facts};

impl Performance {
    /// Prints the line of what a policy session opened by this event, where the scene names the policy of what
    /// was opened, and behind it its certificate, where certificates are told. It fails only where memory ran out.
    pub fn print_opening(
        &mut self,
        alloc: Global,
        scenario: &Scenario,
        event: u32,
        opened: &Option<Opened>,
    ) -> Result<(), NoMemory>
        requires walked { All (λ entity. IsWalkable scenario.now.approvals entity.document.closed)
            scenario.now.entities }
        requires meets { IfSome opened.now (MeetsPolicy scenario.now.entities) }
        ensures told { OnOk result (self.new
            ≡ entity_opened scenario.now event opened.now self.old) }
        ensures past { OnOk result (self.new.past ≡ self.old.past) }
        ensures setup { OnOk result (self.new.setup ≡ self.old.setup) }
    {
        match opened {
            None => Ok(()),
            Some(opened) => self.print_opened(alloc, scenario, event, opened),
        }
    }

    // The same of an entity that was opened.
    #[tactic(auto, unfolding(crate::specs::CommandsTold::policy_opened))]
    fn print_opened(
        &mut self,
        alloc: Global,
        scenario: &Scenario,
        event: u32,
        opened: &Opened,
    ) -> Result<(), NoMemory>
        requires walked { All (λ entity. IsWalkable scenario.now.approvals entity.document.closed)
            scenario.now.entities }
        requires meets { MeetsPolicy scenario.now.entities opened.now }
        ensures told { OnOk result (self.new
            ≡ entity_opened scenario.now event (Some opened.now) self.old) }
        ensures past { OnOk result (self.new.past ≡ self.old.past) }
        ensures setup { OnOk result (self.new.setup ≡ self.old.setup) }
    {
        match scenario.document_of_entity(opened.entity) {
            None => Ok(()),
            Some(document) => {
                self.print_policy_opening(alloc, scenario, event, document, &opened.facts)
            }
        }
    }

    // The same of facts that opened an entity with this policy.
    #[tactic(auto, unfolding(crate::specs::CommandsTold::policy_opened))]
    fn print_policy_opening(
        &mut self,
        alloc: Global,
        scenario: &Scenario,
        event: u32,
        document: &CompiledDocument,
        facts: &Facts,
    ) -> Result<(), NoMemory>
        requires walked { IsWalkable scenario.now.approvals document.now.closed }
        requires sound { IsSound (moves_of_facts facts.now) }
        requires digest { digest_of_moves (moves_of_facts facts.now)
            ≡ policy_digest document.now.closed }
        ensures told { OnOk result (self.new
            ≡ policy_opened scenario.now.manner scenario.now.approvals event facts.now
            (Some document.now.closed) self.old) }
        ensures past { OnOk result (self.new.past ≡ self.old.past) }
        ensures setup { OnOk result (self.new.setup ≡ self.old.setup) }
    {
        let policy = &document.filled().closed;
        let approvals = scenario.approvals.documents();
        let opening = opening_with_memo(alloc, policy, document.memo(), approvals, facts)?;
        let told = self.print_lines(alloc, scenario, event, policy, &opening);
        drop(opening);
        told
    }

    // The line of an opening, and that of its certificate where certificates are told.
    fn print_lines(
        &mut self,
        alloc: Global,
        scenario: &Scenario,
        event: u32,
        policy: &Closed,
        opening: &Opening,
    ) -> Result<(), NoMemory>
        requires within { AreWithinLimits (paths_of policy.now scenario.now.approvals) }
        requires listed { IsListed (paths_of policy.now scenario.now.approvals) opening.now }
        ensures told { OnOk result (self.new
            ≡ with_opening_of (certifies scenario.now.manner) policy.now scenario.now.approvals
            event (Some opening.now) self.old) }
        ensures past { OnOk result (self.new.past ≡ self.old.past) }
        ensures setup { OnOk result (self.new.setup ≡ self.old.setup) }
    {
        let approvals = scenario.approvals.documents();
        let line = opening_line(alloc, event, policy, approvals, opening)?;
        self.print_bytes(line.as_slice())?;
        if scenario.manner.certifies() {
            self.print_certificate(alloc, event, policy, approvals, opening)
        } else {
            Ok(())
        }
    }

    // The line of the certificate of an opening, which it has where it names a path.
    #[tactic(auto, using(crate::proofs::Certified::certificate_shown))]
    fn print_certificate(
        &mut self,
        alloc: Global,
        event: u32,
        policy: &Closed,
        approvals: &Approvals,
        opening: &Opening,
    ) -> Result<(), NoMemory>
        requires within { AreWithinLimits (paths_of policy.now approvals.now) }
        requires listed { IsListed (paths_of policy.now approvals.now) opening.now }
        ensures told { OnOk result (self.new
            ≡ with_certificate true event
            (certificate_of_opening policy.now approvals.now (Some opening.now)) self.old) }
        ensures past { OnOk result (self.new.past ≡ self.old.past) }
        ensures setup { OnOk result (self.new.setup ≡ self.old.setup) }
    {
        match opening {
            Opening::Branch { path, .. } => {
                let bytes = certify(alloc, policy, approvals, *path)?;
                let line = certificate_line(alloc, event, bytes.as_slice());
                drop(bytes);
                self.print(line?.as_str())
            }
            Opening::Clash { .. } => Ok(()),
            Opening::ZeroInput { .. } => Ok(()),
        }
    }
}
