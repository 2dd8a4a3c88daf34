ghost use Rattle.std.specs.Prelude.{◌≡◌, [], ◌∷◌, ◌++◌, ◌+◌, ◌-◌, ◌<◌, ◌≤◌, ◌^◌, length, None, ◌↔◌, IsNone, IfOk, false};
ghost use Rattle.tpol_digest.specs.Sound.{IsSound, Meets};
ghost use Rattle.tpm_bindings.specs.Agreement.{Agree};
ghost use Rattle.tpm_bindings.specs.Facts.{has_pcr, moves_of};
ghost use Rattle.tpm_bindings.specs.Merged.{merged};
ghost use Rattle.tpm_rules.specs.Session.{policy_digest_of};
ghost use Rattle.tpm_rules.specs.Standing.{standing_of};
ghost use Rattle.tpm_session.specs.Kept as spec;

use std::alloc::Global;
use std::marker::Model;
use tpm_bindings::Bindings;
use tpm_rules::Standing;
use tpol_base::{Digest32, NoMemory};
use tpol_digest::digest_after_move;
use tpol_tree::{Assertion, Fact, Facts, Move};

/// No facts, with the room that a session needs for its 512; the one call that takes memory beside those that make
/// slots, `Sessions::new` and `Table::new`.
pub fn fresh_facts(alloc: Global) -> Result<Facts, NoMemory>
    ensures { IfOk result (λ facts. facts ≡ []) }
{
    Facts::new(alloc)
}

/// A policy session; contracts see its handle, and of its state the time of its start in milliseconds, its
/// nonceTPM, its facts and the PCR counter that the first PolicyPCR found.
#[derive(Drop)]
pub struct Session {
    handle: u32,
    start: u64,
    nonce: Digest32,
    facts: Facts,
    counter: Option<u32>,
    digest: Digest32,
    bindings: Bindings,
}

impl Model for Session {
    ghost use Rattle.tpm_session.specs.Kept.{SessionView, IsKept, state_of};

    ghost Value = { SessionView };

    ghost view = { λ s. record { handle = s.handle; state = state_of s.start s.nonce s.facts s.counter } };

    ghost invariant = { λ s. IsKept (state_of s.start s.nonce s.facts s.counter) s.digest s.bindings };
}

impl Session {
    /// A session without facts. Facts are to be empty, and bring their room.
    pub(crate) fn new(handle: u32, start: u64, nonce: Digest32, facts: Facts) -> Session
        requires empty { facts ≡ [] }
        requires early { start ≤ 2 ^ 63 }
        ensures { result ≡ record {
          handle = handle;
          state = record
              { start = start; nonce = nonce; facts = []; counter = None };
        } }
    {
        Session {
            handle,
            start,
            nonce,
            facts,
            counter: None,
            digest: Digest32::ZERO,
            bindings: Bindings::new(),
        }
    }

    /// The session's handle.
    pub fn handle(&self) -> u32
        ensures { result ≡ self.now.handle }
    {
        self.handle
    }

    /// The time of its start, in milliseconds.
    pub fn start(&self) -> u64
        ensures value { result ≡ self.now.state.start }
        ensures early { result ≤ 2 ^ 63 }
    {
        self.start
    }

    /// Its nonceTPM.
    pub fn nonce(&self) -> Digest32
        ensures { result ≡ self.now.state.nonce }
    {
        self.nonce
    }

    /// Its policyDigest: that of its facts.
    pub fn digest(&self) -> Digest32
        ensures { result ≡ policy_digest_of self.now.state }
    {
        self.digest
    }

    /// Its facts, which are sound and agree.
    pub fn facts(&self) -> &Facts
        ensures value { result.now ≡ self.now.state.facts }
        ensures sound { IsSound (moves_of self.now.state.facts) }
        ensures agree { Agree (moves_of self.now.state.facts) }
    {
        &self.facts
    }

    /// What its facts, which agree, bind together.
    pub fn bindings(&self) -> &Bindings
        ensures value { result.now ≡ merged self.now.state.facts }
        ensures agree { Agree (moves_of self.now.state.facts) }
    {
        &self.bindings
    }

    /// The session as rules read it.
    pub fn standing(&self) -> Standing
        ensures value { result ≡ standing_of self.now.state }
        ensures start { result.start ≤ 2 ^ 63 }
    {
        Standing {
            start: self.start,
            nonce: self.nonce,
            digest: self.digest,
            bindings: self.bindings,
            counter: self.counter,
        }
    }

    /// How many facts it has room for: 512 less those that it has.
    pub fn room(&self) -> u32
        ensures { result + length self.now.state.facts ≡ 512 }
    {
        (Facts::ROOM - self.facts.len()) as u32
    }

    /// The PCR counter that the first PolicyPCR found; `None` exactly where there is no such fact.
    pub fn pcr_counter(&self) -> Option<u32>
        ensures value { result ≡ self.now.state.counter }
        ensures none { IsNone result ↔ (has_pcr self.now.state.facts ≡ false) }
    {
        self.counter
    }

    /// Adds a fact, and keeps the PCR counter where it is the first PolicyPCR. The move has to meet the
    /// session's digest and to agree with the facts before.
    pub fn add(&mut self, fact: Fact, counter: u32)
        requires room { length self.old.state.facts < 512 }
        requires meets { Meets (policy_digest_of self.old.state) fact.act }
        requires agrees { Agree (moves_of self.old.state.facts ++ fact.act ∷ []) }
        ensures handle { self.new.handle ≡ self.old.handle }
        ensures state { self.new.state ≡ spec.with_fact self.old.state fact counter }
    {
        self.counter = counter_after(self.counter, &fact.act, counter);
        self.digest = digest_after_move(self.digest, &fact.act);
        self.bindings.merge(&fact.act, fact.cp_hash, fact.deadline);
        self.facts.push(fact);
    }

    /// Drops the facts; start and nonce stay.
    #[tactic(auto, using(tpol_base::proofs::Digests::same_digest))]
    pub(crate) fn restart(&mut self)
        ensures handle { self.new.handle ≡ self.old.handle }
        ensures state { self.new.state ≡ spec.without_facts self.old.state }
    {
        self.facts.clear();
        self.counter = None;
        self.digest = Digest32::ZERO;
        self.bindings = Bindings::new();
    }

    /// The session with a new nonce and without its facts, which are handed out; `empty` takes their place.
    pub(crate) fn renewed(self, nonce: Digest32, empty: Facts) -> (Session, Facts)
        requires { empty ≡ [] }
        ensures handle { result.0.handle ≡ self.handle }
        ensures state { result.0.state ≡ spec.with_nonce self.state nonce }
        ensures facts { result.1 ≡ self.state.facts }
    {
        let Session {
            handle,
            start,
            facts,
            ..
        } = self;
        (Session::new(handle, start, nonce, empty), facts)
    }

    /// The session's facts.
    pub(crate) fn into_facts(self) -> Facts
        ensures { result ≡ self.state.facts }
    {
        let Session { facts, .. } = self;
        facts
    }
}

// The counter to keep: the one that the first PolicyPCR found.
fn counter_after(first: Option<u32>, act: &Move, now: u32) -> Option<u32>
    ensures { result ≡ spec.counter_after first act.now now }
{
    match (first, act) {
        (None, Move::Assert(Assertion::Pcr { .. })) => Some(now),
        (first, _) => first,
    }
}
