ghost use Rattle.std.specs.Prelude.{◌≡◌};
ghost use Rattle.tpol_digest.specs.Digest as spec;
ghost use Rattle.tpol_tree.specs.Facts.{moves_of};
ghost use Rattle.tpol_digest.specs.Term.{bytes_of_term, term_of_moves};

use crate::assertion::extend;
use crate::policy::{approve_digest, approve_nv_digest, or_digest};
use tpol_base::Digest32;
use tpol_tree::{Fact, Facts, Move, Path};

/// The digest after a path's moves, from 32 zero bytes.
pub fn run_path(path: &Path) -> Digest32
    ensures digest { result ≡ spec.digest_of_moves path.now.moves }
    ensures term { result ≡ bytes_of_term (term_of_moves path.now.moves) }
{
    digest_after_moves(Digest32::ZERO, path.moves.as_slice())
}

/// The digest after the moves of facts, from 32 zero bytes: what a session's policyDigest is after these
/// policy commands.
pub fn run_facts(facts: &Facts) -> Digest32
    ensures digest { result ≡ spec.digest_of_moves (moves_of facts.now) }
    ensures term { result ≡ bytes_of_term (term_of_moves (moves_of facts.now)) }
{
    digest_after_facts(Digest32::ZERO, facts.as_slice())
}

// The digest after moves in a row.
fn digest_after_moves(before: Digest32, moves: &[Move]) -> Digest32
    ensures { result ≡ spec.digest_from before moves.now }
{
    moves
        .iter()
        .fold(before, |digest, act| digest_after_move(digest, act))
}

// The digest after the moves of facts.
fn digest_after_facts(before: Digest32, facts: &[Fact]) -> Digest32
    ensures { result ≡ spec.digest_from before (moves_of facts.now) }
{
    facts.iter().fold(before, |digest, fact| digest_after_move(digest, &fact.act))
}

/// The digest after one move, where `before` is the digest before it (TPM 2.0 Part 3, the policy commands).
pub fn digest_after_move(before: Digest32, act: &Move) -> Digest32
    ensures { result ≡ spec.digest_after act.now before }
{
    match act {
        Move::Assert(assertion) => extend(before, assertion),
        Move::Or(digests) => or_digest(digests.as_slice()),
        Move::Approve {
            key,
            policy_ref,
            approved: _,
            signature: _,
        } => approve_digest(key, policy_ref),
        Move::ApproveNv { index, approved: _ } => approve_nv_digest(index),
    }
}
