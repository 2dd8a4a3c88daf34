// One path of a policy, by its position, without the others.

ghost use Rattle.std.specs.Prelude.{◌≡◌, false, ◌+◌, ◌-◌, ◌<◌, ◌≤◌, ◌++◌, Some, IfOk, IfSome, IsTrue, OnOk, length};
ghost use Rattle.std.specs.List.{list_any, slice_get};
ghost use Rattle.tpol_digest.specs.Digest as digest;
ghost use Rattle.tpol_digest.specs.Limits.{AreWithinLimits};
ghost use Rattle.tpol_digest.specs.Memos.{IsMemo, Knows, KnowsBranches, KnowsFirst};
ghost use Rattle.tpol_digest.specs.Paths as spec;
ghost use Rattle.tpol_digest.specs.Positions as at;
ghost use Rattle.tpol_digest.specs.Sound.{IsSound};
ghost use Rattle.tpol_digest.specs.WellFormed.{IsWellFormed};
ghost use Rattle.tpol_tree.specs.declared.closed.ClosedElement.TheVariants.{Or as OneOr};

use crate::approval::{accepts, approval};
use crate::counting::{extent_of_element, extent_of_elements};
use crate::limits::MAX_LEVELS;
use crate::memo::{Before, BeforeBranches, Memo, memo_of_elements};
use crate::policy::{push_branch_digests, zero_digest};
use std::alloc::Global;
use tpol_base::{Blob, Digests, NoMemory};
use tpol_tree::{
    Approvals, ApprovedDoc, Closed, ClosedBranches, ClosedElement, ClosedElements, Move, Moves,
    Path, PathStep, PathSteps,
};

// What each part of a path is found in: the approved documents, which may be entered `levels` deep.
#[derive(Clone, Copy)]
struct Walk<'a> {
    alloc: Global,
    approvals: &'a [ApprovedDoc],
    levels: u8,
}

/// The way through a policy that has a position, from 1. The ways stand in document order, and earlier
/// choices vary slowest: each branch of an OR is a way, and then the OR; each approved document that an
/// AUTHORIZE or AUTHORIZENV accepts is one, and then the approval; last comes the way by a policy that no
/// listed document has. At most four approvals lie inside one another. A path's `outside` says whether one
/// of its choices is such a way.
///
/// The way gives the policy's digest. Where the policy with its approvals is well formed, each OR and each
/// approval on it meets the digest before it, and an outside path begins with its approval of the zero digest.
pub fn path_at(
    alloc: Global,
    policy: &Closed,
    approvals: &Approvals,
    position: u32,
) -> Result<Path, NoMemory>
    requires within { AreWithinLimits (spec.paths_of policy.now approvals.now) }
    requires positions { (1 ≤ position)
        × (position ≤ length (spec.paths_of policy.now approvals.now)) }
    ensures path { IfOk result
        (λ path. slice_get (spec.paths_of policy.now approvals.now) (position - 1) ≡ Some path) }
    ensures outside { IfOk result (λ path. path.outside ≡ list_any spec.is_outside path.steps) }

    // All branches meet.
    ensures digest { IfOk result (λ path. digest.digest_of_moves path.moves
        ≡ digest.policy_digest policy.now) }
    ensures sound { IsWellFormed policy.now approvals.now
        → IfOk result (λ path. IsSound path.moves) }
    ensures outside_first { IsWellFormed policy.now approvals.now
        → IfOk result (λ path. IsTrue path.outside → spec.BeginsWithZeroApproval path.moves) }
{
    path_from(
        alloc,
        policy,
        &Before::without_memo(zero_digest()),
        approvals,
        position,
    )
}

/// The same way, of a policy whose digests are kept: none of them is computed again.
pub fn path_at_with_memo(
    alloc: Global,
    policy: &Closed,
    memo: &Memo,
    approvals: &Approvals,
    position: u32,
) -> Result<Path, NoMemory>
    requires memo { IsMemo policy.now.elements digest.zero_digest memo.now }
    requires within { AreWithinLimits (spec.paths_of policy.now approvals.now) }
    requires positions { (1 ≤ position)
        × (position ≤ length (spec.paths_of policy.now approvals.now)) }
    ensures path { IfOk result
        (λ path. slice_get (spec.paths_of policy.now approvals.now) (position - 1) ≡ Some path) }
    ensures outside { IfOk result (λ path. path.outside ≡ list_any spec.is_outside path.steps) }
    ensures digest { IfOk result (λ path. digest.digest_of_moves path.moves
        ≡ digest.policy_digest policy.now) }
    ensures sound { IsWellFormed policy.now approvals.now
        → IfOk result (λ path. IsSound path.moves) }
    ensures outside_first { IsWellFormed policy.now approvals.now
        → IfOk result (λ path. IsTrue path.outside → spec.BeginsWithZeroApproval path.moves) }
{
    path_from(alloc, policy, &Before::start(memo), approvals, position)
}

// The same, behind what stands before the policy: 32 zero bytes, and its digests where they are kept.
fn path_from(
    alloc: Global,
    policy: &Closed,
    before: &Before<'_>,
    approvals: &Approvals,
    position: u32,
) -> Result<Path, NoMemory>
    requires knows { Knows before.now policy.now.elements }
    requires zero { before.now.digest ≡ digest.zero_digest }
    requires within { AreWithinLimits (spec.paths_of policy.now approvals.now) }
    requires positions { (1 ≤ position)
        × (position ≤ length (spec.paths_of policy.now approvals.now)) }
    ensures path { IfOk result
        (λ path. slice_get (spec.paths_of policy.now approvals.now) (position - 1) ≡ Some path) }
    ensures outside { IfOk result (λ path. path.outside ≡ list_any spec.is_outside path.steps) }
    ensures digest { IfOk result (λ path. digest.digest_of_moves path.moves
        ≡ digest.policy_digest policy.now) }
    ensures sound { IsWellFormed policy.now approvals.now
        → IfOk result (λ path. IsSound path.moves) }
    ensures outside_first { IsWellFormed policy.now approvals.now
        → IfOk result (λ path. IsTrue path.outside → spec.BeginsWithZeroApproval path.moves) }
{
    let walk = Walk {
        alloc,
        approvals: approvals.as_slice(),
        levels: MAX_LEVELS,
    };
    let elements = &policy.elements;
    let extent = before.extent(walk.approvals, walk.levels, elements);
    let mut path = empty_path(alloc, extent.moves)?;
    let index = u64::from(position - 1);
    push_from_zero(&walk, &mut path, elements, before, index, extent.paths)?;
    Ok(path)
}

// The path with no choice and no move, with room for so many moves.
fn empty_path(alloc: Global, moves: u64) -> Result<Path, NoMemory>
    ensures { IfOk result (λ path. path ≡ spec.empty_path) }
{
    let moves = Vec::with_capacity(alloc, moves as usize)?;
    Ok(Path {
        steps: PathSteps::new(alloc),
        moves: Moves::from_vec(moves),
        outside: false,
    })
}

/// Whether an OR stands among elements, those of approved documents aside. Where none does, the ways through
/// them are the same from any digest.
pub fn has_or(elements: &ClosedElements) -> bool
    ensures { result ≡ at.has_or elements.now }
{
    match elements {
        ClosedElements::End => false,
        ClosedElements::More(element, rest) => is_or(element) || has_or(rest),
    }
}

// Whether an element is an OR.
fn is_or(element: &ClosedElement) -> bool
    ensures { result ≡ at.is_or element.now }
{
    matches!(element, ClosedElement::Or(_))
}

// Adds the way through elements that has an index among their `count` ways, from the zero digest. A digest is
// needed only before the branches of an OR, so where no OR stands among the elements none is hashed for them.
#[cycle(at_position)]
fn push_from_zero(
    walk: &Walk<'_>,
    path: &mut Path,
    elements: &ClosedElements,
    before: &Before<'_>,
    index: u64,
    count: u64,
) -> Result<(), NoMemory>
    requires knows { Knows before.now elements.now }
    requires zero { before.now.digest ≡ digest.zero_digest }
    requires counted { count ≡ length
        (at.element_list_ways walk.now.approvals.now walk.now.levels elements.now
        digest.zero_digest) }
    requires few { count ≤ 65536 }
    requires inside { index < count }
    ensures { OnOk result (at.GoesOn path.old
        (at.element_list_ways walk.now.approvals.now walk.now.levels elements.now
        digest.zero_digest) index path.new) }
{
    if !has_or(elements) {
        return push_unbranched(walk, path, elements, index, count);
    }
    if before.memo.is_some() {
        return push_elements(walk, path, elements, before, index, count);
    }
    let memo = memo_of_elements(walk.alloc, elements, zero_digest())?;
    let pushed = push_elements(walk, path, elements, &Before::start(&memo), index, count);
    drop(memo);
    pushed
}

// The same of elements among which no OR stands. Their ways are the same from any digest.
#[cycle(at_position)]
fn push_unbranched(
    walk: &Walk<'_>,
    path: &mut Path,
    elements: &ClosedElements,
    index: u64,
    count: u64,
) -> Result<(), NoMemory>
    requires unbranched { at.has_or elements.now ≡ false }
    requires counted { count ≡ length
        (at.element_list_ways walk.now.approvals.now walk.now.levels elements.now
        digest.zero_digest) }
    requires few { count ≤ 65536 }
    requires inside { index < count }
    ensures { OnOk result (at.GoesOn path.old
        (at.element_list_ways walk.now.approvals.now walk.now.levels elements.now
        digest.zero_digest) index path.new) }
{
    match elements {
        ClosedElements::End => Ok(()),
        ClosedElements::More(element, rest) => {
            let choices = extent_of_element(walk.approvals, walk.levels, element).paths;
            let behind = count / choices;
            push_unbranched_element(walk, path, element, index / behind)?;
            push_unbranched(walk, path, rest, index % behind, behind)
        }
    }
}

// The same of one element.
#[cycle(at_position)]
fn push_unbranched_element(
    walk: &Walk<'_>,
    path: &mut Path,
    element: &ClosedElement,
    index: u64,
) -> Result<(), NoMemory>
    requires unbranched { at.is_or element.now ≡ false }
    requires few { length (at.element_ways walk.now.approvals.now walk.now.levels element.now
        digest.zero_digest) ≤ 65536 }
    requires inside { index < length
        (at.element_ways walk.now.approvals.now walk.now.levels element.now digest.zero_digest) }
    ensures { OnOk result (at.GoesOn path.old
        (at.element_ways walk.now.approvals.now walk.now.levels element.now digest.zero_digest)
        index path.new) }
{
    match element {
        ClosedElement::Assert(assertion) => path
            .moves
            .push(Move::Assert(assertion.try_clone(walk.alloc)?)),
        ClosedElement::Or(_) => unreachable!(),
        ClosedElement::Authorize { .. } | ClosedElement::AuthorizeNv { .. } => {
            push_approval(walk, path, element, index)
        }
    }
}

// The same of any elements, behind what stands before them.
#[cycle(at_position)]
fn push_elements(
    walk: &Walk<'_>,
    path: &mut Path,
    elements: &ClosedElements,
    before: &Before<'_>,
    index: u64,
    count: u64,
) -> Result<(), NoMemory>
    requires knows { Knows before.now elements.now }
    requires counted { count ≡ length
        (at.element_list_ways walk.now.approvals.now walk.now.levels elements.now
        before.now.digest) }
    requires few { count ≤ 65536 }
    requires inside { index < count }
    ensures { OnOk result
        (at.GoesOn path.old (at.element_list_ways walk.now.approvals.now walk.now.levels
        elements.now before.now.digest) index path.new) }
{
    match elements {
        ClosedElements::End => Ok(()),
        ClosedElements::More(element, rest) => {
            let choices = before
                .first_extent(walk.approvals, walk.levels, element, rest)
                .paths;
            let behind = count / choices;
            push_element(walk, path, element, rest, before, index / behind)?;
            let after = before.behind(element, rest);
            push_elements(walk, path, rest, &after, index % behind, behind)
        }
    }
}

// The same of one element, which comes before the rest of its list.
#[cycle(at_position)]
fn push_element(
    walk: &Walk<'_>,
    path: &mut Path,
    element: &ClosedElement,
    rest: &ClosedElements,
    before: &Before<'_>,
    index: u64,
) -> Result<(), NoMemory>
    requires knows { KnowsFirst before.now element.now rest.now }
    requires few { length (at.element_ways walk.now.approvals.now walk.now.levels element.now
        before.now.digest) ≤ 65536 }
    requires inside { index < length
        (at.element_ways walk.now.approvals.now walk.now.levels element.now before.now.digest) }
    ensures { OnOk result
        (at.GoesOn path.old (at.element_ways walk.now.approvals.now walk.now.levels element.now
        before.now.digest) index path.new) }
{
    match element {
        ClosedElement::Or(branches) => {
            push_branch(
                walk,
                path,
                branches,
                &before.within(branches, rest),
                1,
                index,
            )?;
            let digests = digests_of_or(walk.alloc, branches, rest, before)?;
            path.moves.push(Move::Or(digests))
        }
        _ => push_unbranched_element(walk, path, element, index),
    }
}

// The digests of the branches of an OR, which comes before the rest of its list.
fn digests_of_or(
    alloc: Global,
    branches: &ClosedBranches,
    rest: &ClosedElements,
    before: &Before<'_>,
) -> Result<Digests, NoMemory>
    requires knows { KnowsFirst before.now (OneOr branches.now) rest.now }
    ensures { IfOk result
        (λ digests. digests ≡ digest.branch_digests branches.now before.now.digest) }
{
    match before.kept_digests(branches, rest) {
        Some(kept) => Digests::from_slice(alloc, kept),
        None => {
            let mut digests = Digests::new(alloc);
            push_branch_digests(&mut digests, branches, before.digest)?;
            Ok(digests)
        }
    }
}

// The same of branches from a position on, without the move of their OR.
#[cycle(at_position)]
fn push_branch(
    walk: &Walk<'_>,
    path: &mut Path,
    branches: &ClosedBranches,
    before: &BeforeBranches<'_>,
    position: u32,
    index: u64,
) -> Result<(), NoMemory>
    requires knows { KnowsBranches before.now branches.now }
    requires few { length (at.branch_ways walk.now.approvals.now walk.now.levels branches.now
        position before.now.digest) ≤ 65536 }
    requires inside { index < length
        (at.branch_ways walk.now.approvals.now walk.now.levels branches.now position
        before.now.digest) }
    ensures { OnOk result
        (at.GoesOn path.old (at.branch_ways walk.now.approvals.now walk.now.levels branches.now
        position before.now.digest) index path.new) }
{
    match branches {
        ClosedBranches::End => Ok(()),
        ClosedBranches::More(branch, rest) => {
            let elements = &branch.policy.elements;
            let first = before.first(elements, rest);
            let count = first.extent(walk.approvals, walk.levels, elements).paths;
            if index < count {
                let name = branch.name.try_clone(walk.alloc)?;
                path.steps.push(PathStep::Branch { position, name })?;
                push_elements(walk, path, elements, &first, index, count)
            } else {
                let next = next_position(position)?;
                let behind = before.behind(elements, rest);
                push_branch(walk, path, rest, &behind, next, index - count)
            }
        }
    }
}

// The position behind one, which must fit 32 bits.
fn next_position(position: u32) -> Result<u32, NoMemory>
    ensures { IfOk result (λ next. next ≡ position + 1) }
{
    position.checked_add(1).ok_or(NoMemory)
}

// The same of an element that asks for an approval.
#[cycle(at_position)]
fn push_approval(
    walk: &Walk<'_>,
    path: &mut Path,
    element: &ClosedElement,
    index: u64,
) -> Result<(), NoMemory>
    requires few { length (at.approval_ways walk.now.approvals.now walk.now.levels element.now)
        ≤ 65536 }
    requires inside { index < length
        (at.approval_ways walk.now.approvals.now walk.now.levels element.now) }
    ensures { OnOk result (at.GoesOn path.old
        (at.approval_ways walk.now.approvals.now walk.now.levels element.now) index path.new) }
{
    let mut left = index;
    if walk.levels > 0 {
        let inner = Walk {
            levels: walk.levels - 1,
            ..*walk
        };
        for document in walk.approvals {
            if accepts(element, document) {
                let elements = &document.closed.elements;
                let count = extent_of_elements(walk.approvals, inner.levels, elements).paths;
                if left < count {
                    let name = document.document.try_clone(walk.alloc)?;
                    path.steps.push(PathStep::Document(name))?;
                    let before = Before::without_memo(zero_digest());
                    push_from_zero(&inner, path, elements, &before, left, count)?;
                    return push_use(walk.alloc, path, element, document);
                }
                left -= count;
            }
        }
    }
    push_outside(walk.alloc, path, element)
}

// Adds the move that uses the document's approval.
fn push_use(
    alloc: Global,
    path: &mut Path,
    element: &ClosedElement,
    document: &ApprovedDoc,
) -> Result<(), NoMemory>
    ensures { OnOk result (IfSome (spec.approval_of element.now document.now)
        (λ act. path.new ≡ spec.followed_by path.old (spec.path_of_move act))) }
{
    match approval(alloc, element, document)? {
        Some(act) => path.moves.push(act),
        None => Ok(()),
    }
}

// Adds the way by a policy that no listed document has.
fn push_outside(alloc: Global, path: &mut Path, element: &ClosedElement) -> Result<(), NoMemory>
    requires { 0 < length (spec.outside_paths element.now) }
    ensures { OnOk result (at.GoesOn path.old (spec.outside_paths element.now) 0 path.new) }
{
    match element {
        ClosedElement::Authorize { key, policy_ref } => {
            let policy_ref = Blob::from_slice(alloc, policy_ref.as_slice())?;
            push_outside_move(
                path,
                Move::Approve {
                    key: *key,
                    policy_ref,
                    approved: zero_digest(),
                    signature: zero_digest(),
                },
            )
        }
        ClosedElement::AuthorizeNv { index } => push_outside_move(
            path,
            Move::ApproveNv {
                index: *index,
                approved: zero_digest(),
            },
        ),
        ClosedElement::Assert(_) | ClosedElement::Or(_) => Ok(()),
    }
}

// Adds a choice outside the listed documents and its move.
fn push_outside_move(path: &mut Path, act: Move) -> Result<(), NoMemory>
    ensures { OnOk result (path.new ≡ spec.followed_by path.old (spec.outside_path act)) }
{
    path.steps.push(PathStep::Outside)?;
    path.moves.push(act)?;
    path.outside = true;
    Ok(())
}
