//! The law of inversion: functions without a body, whose clauses are the law.

ghost use Rattle.std.specs.Prelude.{◌≡◌, IsSome, List, Option};
ghost use Rattle.tpol_tree.specs.declared.closed.Assertion.{Assertion};
ghost use Rattle.tpol_tree.specs.declared.closed.Closed.{Closed};
ghost use Rattle.tpol_tree.specs.declared.facts.Fact.{Fact};
ghost use Rattle.tpol_tree.specs.declared.path.ApprovedDoc.{ApprovedDoc};
ghost use Rattle.tpol_digest.specs.Digest.{digest_of_moves, policy_digest};
ghost use Rattle.tpol_digest.specs.Sound.{IsSound};
ghost use Rattle.tpol_tree.specs.Facts.{moves_of};
ghost use Rattle.tpol_digest.specs.WellFormed.{IsWellFormed};
ghost use Rattle.tpol_trace.specs.Chains.{digest_of_chain, ChainsAgree, EndsTwice, HasNoApproval};
ghost use Rattle.tpol_trace.specs.Openings.{opening_of, IsOpening};
ghost use Rattle.tpol_trace.specs.declared.answer.Opening.{Opening};

/// Two chains of assertions with one digest, each of them whole or ended at the first digest of a
/// PolicySecret or a PolicySigned: either both are whole or both end so, and they are the same in order, a
/// first digest in its command code and Name; or two different strings of one SHA-256 digest, or one of
/// digest zero, are among what is hashed for the two.
pub fn chains_agree()
    ensures { (one other : List Assertion) (half end : Option Assertion) → EndsTwice half
        → EndsTwice end
        → digest_of_chain one half ≡ digest_of_chain other end → ChainsAgree one half other end }
{}

/// The law of `facts_open` for a policy without AUTHORIZE and AUTHORIZENV. It asks nothing of the policy
/// besides, nor of any approved document.
pub fn facts_open_without_approvals()
    ensures { (policy : Closed) (approvals : List ApprovedDoc) (facts : List Fact)
        → HasNoApproval policy
        → IsSound (moves_of facts) → digest_of_moves (moves_of facts) ≡ policy_digest policy
        → IsSome (opening_of policy approvals facts) }
{}

/// Where the policy commands of a session, each of which met the digest before it, give the digest of a
/// policy that is well formed with its approvals, there is an opening: a written path that they went, or
/// two different strings of one SHA-256 digest, or a string of digest zero, among what was hashed for the
/// policy, its approved documents and the session.
pub fn facts_open()
    ensures opens { (policy : Closed) (approvals : List ApprovedDoc) (facts : List Fact)
        → IsWellFormed policy approvals
        → IsSound (moves_of facts) → digest_of_moves (moves_of facts) ≡ policy_digest policy
        → IsSome (opening_of policy approvals facts) }
    ensures means { (policy : Closed) (approvals : List ApprovedDoc) (facts : List Fact)
        (opening : Opening)
        → opening_of policy approvals facts ≡ Some opening
        → IsOpening policy approvals facts opening }
{}
