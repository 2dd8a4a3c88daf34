// The command `check`.

ghost use Rattle.std.specs.Prelude.{◌≡◌, ◌∷◌, ◌-◌, ◌≤◌, [], true, IfSome, IfOk, decimal, length, map, slice_get, ⊤};
ghost use Rattle.tpol_cert.specs.Judgement.{judgement_of};
ghost use Rattle.tpol_digest.specs.Limits.{AreWithinLimits};
ghost use Rattle.tpol_digest.specs.Paths.{paths_of};
ghost use Rattle.tpol_lines.specs.Lines.{spaced};
ghost use Rattle.tpol_lines.specs.OpeningLine.{steps_of};
ghost use Rattle.tpol_prepare.specs.References.{policy_called};
ghost use Rattle.tpol_prepare.specs.Shelved.{erased_with_approvals, shelved_of};
ghost use Rattle.tpol_steps.specs.Refusals as refusals;
ghost use Rattle.tpol_steps.specs.Steps.{Answers, AsksShelf, IsInside};
ghost use Rattle.tpol_store.specs.Stores.{policies_of};
ghost use Rattle.tpol_top.specs.Check.{accepted, bytes_in, certificate_answer, certificate_step, check_step, document_step, named_policy_step, without_line_feed};
ghost use Rattle.tpol_tree.specs.ClosedErased.{erased, erased_document};
ghost use Rattle.tpol_tree.specs.Erased.{erased_policy};

use hex::FromHexError;
use std::alloc::Global;
use tpol_base::{NoMemory, Shelf, Text};
use tpol_cert::{CertFault, check};
use tpol_digest::{digest_of, path_at};
use tpol_lines::{Lines, certified_line};
use tpol_prepare::{PolicyWithApprovals, StoreWithScene};
use tpol_steps::{Answer, Halt, Verdict, bad_certificate, digest_line, no_such_policy};
use tpol_store::Store;
use tpol_tree::{Approvals, Closed, Policy};

/// The command `check`: whether the source is a certificate of a path of the shelf's policy of this name. That is
/// filled with the scene of this name, if one is given, and documents of the shelf are approved.
///
/// `Refused` tells the first refusal: of the scene, of the shelf's documents, of the policy's name, of a policy that
/// the scene names and that is not there or not filled, of a place of the policy that has no value, of paths that are
/// not within the limits, or else of the certificate. `ShelfFailed` comes only where the shelf failed, and `NoMemory`
/// where memory ran out. The certificate is looked at last.
#[tactic(auto, unfolding(crate::specs::Check::check_step))]
pub fn check_source<H: Shelf>(
    alloc: Global,
    name: &Text,
    scene: &Option<Text>,
    input: &[u8],
    shelf: &mut H,
) -> Result<Answer, Halt>
    ensures answer { IfSome (H.documents shelf.old) (λ all.
        Answers (λ answer. answer) (check_step name.now scene.now input.now all) result) }
    ensures keeps { H.documents shelf.new ≡ H.documents shelf.old }
    ensures asks { AsksShelf true ⊤ shelf.old shelf.new (H.faults shelf.old)
        (H.faults shelf.new) result }
{
    let shelved = StoreWithScene::load(alloc, scene, shelf)?;
    let found = closed_document(alloc, &shelved, name);
    drop(shelved);
    let found = found?;
    let answer = check_text(alloc, &found.closed, &found.approvals, input);
    drop(found);
    answer
}

// The policy of this name, filled with the scene, with the documents that are approved.
#[tactic(auto, unfolding(crate::specs::Check::document_step))]
fn closed_document(
    alloc: Global,
    shelved: &StoreWithScene,
    name: &Text,
) -> Result<PolicyWithApprovals, Halt>
    ensures answer { Answers erased_with_approvals
        (document_step (shelved_of shelved.now) name.now) result }
    ensures inside { IsInside result }
    ensures within { IfOk result
        (λ found. AreWithinLimits (paths_of found.closed found.approvals)) }
{
    let policy = named_policy(alloc, &shelved.store, name)?;
    shelved.closed(alloc, Some(name), policy)
}

// The policy of this name, or the end of the run where the store has none.
#[tactic(auto, using(tpol_prepare::proofs::Stored::policy_called_erased))]
fn named_policy<'a>(alloc: Global, store: &'a Store, name: &Text) -> Result<&'a Policy, Halt>
    ensures answer { Answers (λ policy. erased_policy policy.now)
        (named_policy_step name.now (policy_called name.now (policies_of store.now))) result }
    ensures inside { IsInside result }
{
    match store.find(name.as_str()) {
        Some(policy) => Ok(policy),
        None => Err(Halt::Refused(no_such_policy(alloc, name)?)),
    }
}

// What is told of the certificate in a text.
#[tactic(auto, using(crate::proofs::Checking::certificate_step_erased), unfolding(crate::specs::Check::bytes_in, crate::specs::Check::certificate_step))]
fn check_text(
    alloc: Global,
    closed: &Closed,
    approvals: &Approvals,
    text: &[u8],
) -> Result<Answer, Halt>
    requires within { AreWithinLimits (paths_of closed.now approvals.now) }
    ensures answer { Answers (λ answer. answer) (certificate_step (erased closed.now)
        (map erased_document approvals.now) (bytes_in text.now)) result }
    ensures inside { IsInside result }
{
    match hex::decode(alloc, without_line_feed(text)) {
        Ok(bytes) => check_bytes(alloc, closed, approvals, bytes.as_slice()),
        Err(FromHexError::OutOfMemory) => Err(Halt::NoMemory),
        Err(_) => Err(Halt::Refused(bad_certificate(alloc, "Malformed")?)),
    }
}

// A text without its last byte, where that is a line feed.
fn without_line_feed(text: &[u8]) -> &[u8]
    ensures { result.now ≡ without_line_feed text.now }
{
    let last = text.len().saturating_sub(1);
    if &text[last..] == b"\n".as_slice() {
        &text[..last]
    } else {
        text
    }
}

// What is told of these bytes.
#[tactic(auto, using(crate::proofs::Checking::is_position))]
fn check_bytes(
    alloc: Global,
    closed: &Closed,
    approvals: &Approvals,
    bytes: &[u8],
) -> Result<Answer, Halt>
    requires within { AreWithinLimits (paths_of closed.now approvals.now) }
    ensures answer { Answers (λ answer. answer)
        (certificate_answer closed.now approvals.now
        (judgement_of closed.now approvals.now bytes.now)) result }
    ensures inside { IsInside result }
{
    match check(alloc, closed, approvals, bytes) {
        Ok(position) => Ok(accept(alloc, closed, approvals, position)?),
        Err(CertFault::Malformed) => Err(Halt::Refused(bad_certificate(alloc, "Malformed")?)),
        Err(CertFault::NoStep(number)) => Err(Halt::Refused(refuse(alloc, "NoStep", number)?)),
        Err(CertFault::Differs(number)) => Err(Halt::Refused(refuse(alloc, "Differs", number)?)),
        Err(CertFault::NoMemory) => Err(Halt::NoMemory),
    }
}

// The path that is certified, and the policy's digest.
fn accept(
    alloc: Global,
    closed: &Closed,
    approvals: &Approvals,
    position: u32,
) -> Result<Answer, NoMemory>
    requires within { AreWithinLimits (paths_of closed.now approvals.now) }
    requires positions { (1 ≤ position) × (position ≤ length (paths_of closed.now approvals.now)) }
    ensures { IfOk result (λ answer. answer
        ≡ accepted closed.now position
        (steps_of (slice_get (paths_of closed.now approvals.now) (position - 1)))) }
{
    let path = path_at(alloc, closed, approvals, position)?;
    let line = certified_line(alloc, position, path.steps.as_slice());
    drop(path);
    let mut lines = Lines::new(alloc);
    lines.push_line(line?.as_str())?;
    let digest = digest_line(alloc, &digest_of(closed))?;
    lines.push_line(digest.as_str())?;
    let verdict = Verdict::Done;
    Ok(Answer { lines, verdict })
}

// What is wrong with a step or a digest of this number.
fn refuse(alloc: Global, word: &str, number: u32) -> Result<Answer, NoMemory>
    ensures { IfOk result (λ answer. answer
        ≡ refusals.bad_certificate (spaced (word.now ∷ decimal number ∷ []))) }
{
    let fault = format!(in alloc; "{word} {number}")?;
    bad_certificate(alloc, fault.as_str())
}
