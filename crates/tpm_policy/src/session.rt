//! What the policy commands have in common: one more fact.

ghost use Rattle.std.specs.Prelude.{◌≡◌, ◌∷◌, ◌++◌, ◌<◌, [], None, length};
ghost use Rattle.tpol_digest.specs.Sound.{Meets};
ghost use Rattle.tpol_tree.specs.declared.path.Move.TheVariants.{Assert};
ghost use Rattle.tpm_bindings.specs.Agreement.{Agree};
ghost use Rattle.tpm_bindings.specs.Facts.{moves_of};
ghost use Rattle.tpm_bindings.specs.Merged.{fact_of};
ghost use Rattle.tpm_policy.specs.Asserted.{IsUnbound, with_one_more};
ghost use Rattle.tpm_rules.specs.Session.{policy_digest_of};

use tpm_session::Session;
use tpol_tree::{Assertion, Fact, Move};

// The fact of an assertion without a cpHashA and without a deadline.
pub fn fact_of(event: u32, assertion: Assertion) -> Fact
    ensures { result ≡ fact_of event (Assert assertion) None None }
{
    Fact {
        event,
        act: Move::Assert(assertion),
        cp_hash: None,
        deadline: None,
    }
}

// Adds a fact that meets the session's digest and agrees with the facts before.
pub fn add(session: &mut Session, fact: Fact, counter: u32)
    requires room { length session.old.state.facts < 512 }
    requires meets { Meets (policy_digest_of session.old.state) fact.act }
    requires agrees { Agree (moves_of session.old.state.facts)
        → Agree (moves_of session.old.state.facts ++ fact.act ∷ []) }
    ensures { session.new ≡ with_one_more session.old fact counter }
{
    // Its contract says that the facts before agree.
    session.facts();
    session.add(fact, counter);
}

// Adds a fact that sets nothing which another fact could contradict.
pub fn add_unbound(session: &mut Session, fact: Fact, counter: u32)
    requires room { length session.old.state.facts < 512 }
    requires meets { Meets (policy_digest_of session.old.state) fact.act }
    requires unbound { IsUnbound fact.act }
    ensures { session.new ≡ with_one_more session.old fact counter }
{
    add(session, fact, counter);
}
