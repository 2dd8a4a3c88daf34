// Whether bytes certify a path.

ghost use Rattle.std.specs.Prelude.{◌≡◌, ◌+◌, ◌-◌, ◌<◌, ◌≤◌, ◌^◌, List, Err, Ok, Some, IfErr, IfOk, IsErrOf, length, ℕ};
ghost use Rattle.std.specs.List.{slice_get};
ghost use Rattle.tpol_cert.specs.Certificates.{Certifies, digests_along};
ghost use Rattle.tpol_cert.specs.Choices.{choices_of};
ghost use Rattle.tpol_cert.specs.Judgement.{judgement_of};
ghost use Rattle.tpol_cert.specs.Judging as judging;
ghost use Rattle.tpol_cert.specs.Judging.{AnswersUnlessNoMemory, AreNoCertificate, IsLost, Judged};
ghost use Rattle.tpol_cert.specs.Spelling.{Fits, spelled};
ghost use Rattle.tpol_cert.specs.declared.certificate.Certificate.{Certificate as OneCertificate};
ghost use Rattle.tpol_digest.specs.Digest.{digest_of_moves, policy_digest};
ghost use Rattle.tpol_digest.specs.Limits.{AreWithinLimits};
ghost use Rattle.tpol_digest.specs.Paths.{paths_of};
ghost use Rattle.tpol_tree.specs.declared.path.Path.{Path as OnePath};

use crate::follow::{Stray, follow_elements};
use crate::reading::read_certificate;
use crate::walk::Scope;
use crate::{CertFault, Certificate, Choice};
use std::alloc::Global;
use tpol_base::Digest32;
use tpol_digest::{MAX_LEVELS, count_ways, digest_after_move, path_at, zero_digest};
use tpol_tree::{Approvals, Closed, Move};

/// The position, from 1, of the path that these bytes certify. It follows the choices, counts the ways that they pass
/// over, and lists none. The path gives the policy's digest, which is its certificate's last where it has a move.
///
/// `NoMemory` comes where memory ran out, in place of any other answer; what follows is of the others. `Malformed`
/// comes exactly where the bytes are no certificate. `NoStep` comes where the choices are those of no path, and has the
/// number, from 1, of the first that names none where the earlier ones lead, that is one too many, or that is missing.
/// `Differs` comes where the choices are a path's, and has the number, from 1, of the first digest that is not the one
/// after its move, that is one too many, or that is missing.
pub fn check(
    alloc: Global,
    policy: &Closed,
    approvals: &Approvals,
    bytes: &[u8],
) -> Result<u32, CertFault>
    requires within { AreWithinLimits (paths_of policy.now approvals.now) }
    ensures certifies { IfOk result
        (λ position. Certifies bytes.now policy.now approvals.now position) }
    ensures digest { IfOk result (λ position. (path : OnePath)
        → slice_get (paths_of policy.now approvals.now) (position - 1) ≡ Some path
        → digest_of_moves path.moves ≡ policy_digest policy.now) }

    // Whatever certifies a path is accepted with its position.
    ensures only { (position : ℕ) → Certifies bytes.now policy.now approvals.now position
        → AnswersUnlessNoMemory result (Ok position) }

    // Which refusal it is.
    ensures malformed { IsErrOf result CertFault.Malformed → AreNoCertificate bytes.now }
    ensures no_certificate { AreNoCertificate bytes.now
        → AnswersUnlessNoMemory result (Err CertFault.Malformed) }
    ensures judged { (c : OneCertificate) → Fits c → bytes.now ≡ spelled c
        → Judged policy.now approvals.now c result }

    // The same as one value.
    ensures told { AnswersUnlessNoMemory result (judgement_of policy.now approvals.now bytes.now) }
{
    let certificate = read_certificate(alloc, bytes)?;
    judge(alloc, policy, approvals, &certificate)
}

// The position of the path that a certificate is of, or what is wrong with it first.
fn judge(
    alloc: Global,
    policy: &Closed,
    approvals: &Approvals,
    certificate: &Certificate,
) -> Result<u32, CertFault>
    requires within { AreWithinLimits (paths_of policy.now approvals.now) }
    requires few { length certificate.now.steps < 2 ^ 16 }
    ensures digest { IfOk result (λ position. (path : OnePath)
        → slice_get (paths_of policy.now approvals.now) (position - 1) ≡ Some path
        → digest_of_moves path.moves ≡ policy_digest policy.now) }
    ensures judged { Judged policy.now approvals.now certificate.now result }
{
    let position = position_of(policy, approvals, certificate.steps.as_slice())?;
    let path = path_at(alloc, policy, approvals, position)?;
    let difference = first_difference(
        1,
        certificate.digests.as_slice(),
        zero_digest(),
        path.moves.as_slice(),
    );
    match difference {
        Some(number) => Err(CertFault::Differs(number)),
        None => Ok(position),
    }
}

// The position of the path that steps lead to.
fn position_of(policy: &Closed, approvals: &Approvals, steps: &[Choice]) -> Result<u32, CertFault>
    requires ways { length (choices_of policy.now approvals.now) ≤ 65536 }
    requires few { length steps.now < 2 ^ 16 }
    ensures leads { IfOk result (λ position. (1 ≤ position)
        × (slice_get (choices_of policy.now approvals.now) (position - 1) ≡ Some steps.now)) }
    ensures lost { IfErr result (IsLost (choices_of policy.now approvals.now) steps.now) }
{
    let scope = Scope {
        approvals: approvals.as_slice(),
        levels: MAX_LEVELS,
    };
    let count = count_ways(scope.approvals, scope.levels, &policy.elements);
    let left = match follow_elements(&scope, &policy.elements, count, steps) {
        Ok(led) => {
            if led.left.is_empty() {
                return Ok(led.index as u32 + 1);
            }
            led.left
        }
        Err(Stray::At(left)) => left,
        Err(Stray::NoMemory) => return Err(CertFault::NoMemory),
    };
    Err(CertFault::NoStep((steps.len() - left.len()) as u32 + 1))
}

// The number of the first digest that is not the one after its move, that is one too many, or that is missing,
// where `before` is the digest before these moves and the first digest has this number.
fn first_difference(
    number: u32,
    digests: &[Digest32],
    before: Digest32,
    moves: &[Move],
) -> Option<u32>
    requires few { number + length moves.now < 2 ^ 32 }
    ensures first { result ≡ judging.first_difference number digests.now
        (digests_along before moves.now) }
{
    match moves {
        [] => match digests {
            [] => None,
            [_, ..] => Some(number),
        },
        [act, rest @ ..] => match digests {
            [] => Some(number),
            [first, others @ ..] => {
                let after = digest_after_move(before, act);
                if *first == after {
                    first_difference(number + 1, others, after, rest)
                } else {
                    Some(number)
                }
            }
        },
    }
}
