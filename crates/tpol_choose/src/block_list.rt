// What stands in the way of each way through a policy, on one walk through it, depth first.

ghost use Rattle.std.specs.List.{AllZip};
ghost use Rattle.std.specs.Prelude.{◌≡◌, ◌++◌, All, IfOk, OnOk, ℕ, length, map};
ghost use Rattle.tpol_choose.specs.Ahead.{IsSoundAhead};
ghost use Rattle.tpol_choose.specs.Blocks.{block_on, first_block};
ghost use Rattle.tpol_choose.specs.Kept.{KnowsApproved};
ghost use Rattle.tpol_choose.specs.Lent.{client_of_lent};
ghost use Rattle.tpol_choose.specs.BlockLists as spec;
ghost use Rattle.tpol_choose.specs.Tracks.{IsTrack, TrackState};
ghost use Rattle.tpol_digest.specs.Digest.{digest_at_element, zero_digest as no_digest};
ghost use Rattle.tpol_digest.specs.Limits.{AreWithinLimits};
ghost use Rattle.tpol_digest.specs.Memos.{IsMemo, Knows, KnowsBranches, KnowsFirst};
ghost use Rattle.tpol_digest.specs.Paths.{approved_paths, document_paths, outside_paths, paths_of};
ghost use Rattle.tpol_digest.specs.Positions as at;
ghost use Rattle.tpol_name.specs.Setups.{IsSight};
ghost use Rattle.tpol_tree.specs.declared.closed.ClosedElement.TheVariants.{Or as OneOr};
ghost use Rattle.tpol_choose.specs.Few.{HaveFewBranches, HasFewBranches, ElementHasFewBranches, BranchesHaveFewBranches};

use crate::Block;
use crate::act::Act;
use crate::ahead::Ahead;
use crate::approving::{approval, outside_approval};
use crate::assert_move::AssertMove;
use crate::client::Client;
use crate::lead::Lead;
use crate::or_digests::OrDigests;
use crate::or_move::OrMove;
use crate::selection::{first_of_branches, first_of_documents};
use crate::track::Track;
use crate::walk::Walk;
use std::alloc::Global;
use tpol_base::NoMemory;
use tpol_digest::{Before, BeforeBranches, MAX_LEVELS, Memo};
use tpol_goal::{Goal, Grants};
use tpol_name::Sight;
use tpol_tree::{Approvals, Closed, ClosedBranches, ClosedElement, ClosedElements};

/// What stands in the way of each path of a policy, in the order of the paths (see `can`). The policy is
/// walked once, and no path is made; its digests are kept in `memo`, and those of each approved document in `memos`
/// (see `tpol_digest::memo_of`). It fails only where memory ran out.
pub fn blocks<'a>(
    alloc: Global,
    policy: &Closed,
    memo: &Memo,
    approvals: &'a Approvals,
    memos: &'a [Memo],
    sight: &'a Sight,
    grants: &'a Grants,
    goal: &'a Goal,
    locality: u8,
) -> Result<Vec<Option<Block>>, NoMemory>
    requires memo { IsMemo policy.now.elements no_digest memo.now }
    requires memos { AllZip (λ document memo. IsMemo document.closed.elements no_digest memo)
        approvals.now memos.now }
    requires few { HaveFewBranches policy.now approvals.now }
    requires within { AreWithinLimits (paths_of policy.now approvals.now) }
    requires sight { IsSight sight.now }
    ensures { IfOk result (λ blocks. blocks.items
        ≡ map (λ path. first_block path sight.now grants.now goal.now locality)
        (paths_of policy.now approvals.now)) }
{
    let client = Client::new(sight, grants, goal, locality);
    let walk = Walk {
        client: &client,
        approvals: approvals.as_slice(),
        memos: Some(memos),
        levels: MAX_LEVELS,
    };
    let mut blocks = Vec::new(alloc);
    push_policy(&walk, policy, memo, &mut blocks)?;
    Ok(blocks)
}

fn push_policy(
    walk: &Walk<'_, '_>,
    policy: &Closed,
    memo: &Memo,
    found: &mut Vec<Option<Block>>,
) -> Result<(), NoMemory>
    requires branches { HasFewBranches policy.now.elements }
    requires approved { All (λ document. HasFewBranches document.closed.elements)
        walk.now.approvals.now }
    requires kept { KnowsApproved walk.now }
    requires sight { IsSight walk.now.client.now.sight.now }
    requires levels { walk.now.levels ≡ 4 }
    requires memo { IsMemo policy.now.elements no_digest memo.now }
    requires within { AreWithinLimits (paths_of policy.now walk.now.approvals.now) }
    ensures { OnOk result (found.new.items ≡ found.old.items
        ++ map (block_on (client_of_lent walk.now.client.now))
        (paths_of policy.now walk.now.approvals.now)) }
{
    let track = Track::new(walk.client);
    push_elements(
        walk,
        &track,
        &policy.elements,
        Before::start(memo),
        &Ahead::Nothing,
        found,
    )
}

// Adds the blocks of all ways through elements and what comes behind them; `before` is the digest before the
// elements.
#[cycle(block_list)]
fn push_elements<'a>(
    walk: &Walk<'_, '_>,
    track: &Track,
    elements: &'a ClosedElements,
    before: Before<'a>,
    ahead: &'a Ahead<'a>,
    found: &mut Vec<Option<Block>>,
) -> Result<(), NoMemory>
    requires branches { HasFewBranches elements.now }
    requires approved { All (λ document. HasFewBranches document.closed.elements)
        walk.now.approvals.now }
    requires kept { KnowsApproved walk.now }
    requires sight { IsSight walk.now.client.now.sight.now }
    requires ahead { IsSoundAhead ahead.now }
    requires knows { Knows before elements.now }
    ensures { (state : TrackState) → IsTrack track.now state
        → OnOk result (found.new.items ≡ found.old.items
        ++ spec.blocks_of (client_of_lent walk.now.client.now)
        (spec.blocks_ahead (client_of_lent walk.now.client.now) walk.now.approvals.now ahead.now)
        state (at.element_list_ways walk.now.approvals.now walk.now.levels elements.now
        before.entry.digest)) }
{
    match elements {
        ClosedElements::End => push_ahead(walk, track, ahead, found),
        ClosedElements::More(element, rest) => {
            push_element(walk, track, element, rest, before, ahead, found)
        }
    }
}

// The same of one element, the rest of its list and what comes behind it.
#[cycle(block_list)]
fn push_element<'a>(
    walk: &Walk<'_, '_>,
    track: &Track,
    element: &'a ClosedElement,
    rest: &'a ClosedElements,
    before: Before<'a>,
    ahead: &'a Ahead<'a>,
    found: &mut Vec<Option<Block>>,
) -> Result<(), NoMemory>
    requires branches { ElementHasFewBranches element.now }
    requires rest { HasFewBranches rest.now }
    requires approved { All (λ document. HasFewBranches document.closed.elements)
        walk.now.approvals.now }
    requires kept { KnowsApproved walk.now }
    requires sight { IsSight walk.now.client.now.sight.now }
    requires ahead { IsSoundAhead ahead.now }
    requires knows { KnowsFirst before element.now rest.now }
    ensures { (state : TrackState) → IsTrack track.now state
        → OnOk result (found.new.items ≡ found.old.items
        ++ spec.blocks_of (client_of_lent walk.now.client.now)
        (spec.blocks_rest (client_of_lent walk.now.client.now) walk.now.approvals.now
        walk.now.levels rest.now (digest_at_element element.now before.entry.digest) ahead.now)
        state (at.element_ways walk.now.approvals.now walk.now.levels element.now
        before.entry.digest)) }
{
    match element {
        ClosedElement::Assert(assertion) => {
            let after = before.behind(element, rest);
            let step = AssertMove::with_after(assertion, before.digest, after.digest);
            let mut next = *track;
            next.add(walk.client, &Act::Assert(step));
            push_elements(walk, &next, rest, after, ahead, found)
        }
        ClosedElement::Or(branches) => {
            push_or(walk, track, element, branches, rest, before, ahead, found)
        }
        ClosedElement::Authorize { .. } | ClosedElement::AuthorizeNv { .. } => {
            let after = before.behind(element, rest);
            push_approvals(walk, track, element, rest, after, ahead, found)
        }
    }
}

// The same of an OR, the rest of its list and what comes behind it. A function of its own, so that what it keeps is not
// made for the other elements.
#[cycle(block_list)]
fn push_or<'a>(
    walk: &Walk<'_, '_>,
    track: &Track,
    element: &'a ClosedElement,
    branches: &'a ClosedBranches,
    rest: &'a ClosedElements,
    before: Before<'a>,
    ahead: &'a Ahead<'a>,
    found: &mut Vec<Option<Block>>,
) -> Result<(), NoMemory>
    requires or { element.now ≡ OneOr branches.now }
    requires branches { ElementHasFewBranches (OneOr branches.now) }
    requires rest { HasFewBranches rest.now }
    requires approved { All (λ document. HasFewBranches document.closed.elements)
        walk.now.approvals.now }
    requires kept { KnowsApproved walk.now }
    requires sight { IsSight walk.now.client.now.sight.now }
    requires ahead { IsSoundAhead ahead.now }
    requires knows { KnowsFirst before (OneOr branches.now) rest.now }
    ensures { (state : TrackState) → IsTrack track.now state
        → OnOk result (found.new.items ≡ found.old.items
        ++ spec.blocks_of (client_of_lent walk.now.client.now)
        (spec.blocks_rest (client_of_lent walk.now.client.now) walk.now.approvals.now
        walk.now.levels rest.now (digest_at_element (OneOr branches.now) before.entry.digest)
        ahead.now)
        state (at.element_ways walk.now.approvals.now walk.now.levels (OneOr branches.now)
        before.entry.digest)) }
{
    let digests = OrDigests::of(&before, branches, rest);
    let after = digests.behind(&before, element, rest);
    let or = OrMove::with_after(digests.as_slice(), after.digest);
    let lead = Lead::of(rest, after);
    let inner = before.within(branches, rest);
    let behind = Ahead::After {
        act: Act::Or(or),
        first: lead.first,
        rest: lead.rest,
        before: lead.before,
        levels: walk.levels,
        ahead: &*ahead,
    };
    let selection = track.asking(first_of_branches(branches));
    let kept = walk.client.keeping(selection, &track.session.bindings);
    let among = Walk {
        client: walk.client.or_kept(&kept),
        approvals: walk.approvals,
        memos: walk.memos,
        levels: walk.levels,
    };
    push_branches(&among, track, &*branches, inner, &behind, found)
}

// The same of branches and what comes behind them. Their positions do not matter.
#[cycle(block_list)]
fn push_branches<'a>(
    walk: &Walk<'_, '_>,
    track: &Track,
    branches: &'a ClosedBranches,
    before: BeforeBranches<'a>,
    ahead: &'a Ahead<'a>,
    found: &mut Vec<Option<Block>>,
) -> Result<(), NoMemory>
    requires branches { BranchesHaveFewBranches branches.now }
    requires approved { All (λ document. HasFewBranches document.closed.elements)
        walk.now.approvals.now }
    requires kept { KnowsApproved walk.now }
    requires sight { IsSight walk.now.client.now.sight.now }
    requires ahead { IsSoundAhead ahead.now }
    requires knows { KnowsBranches before branches.now }
    ensures { (state : TrackState) (position : ℕ) → IsTrack track.now state
        → OnOk result (found.new.items ≡ found.old.items
        ++ spec.blocks_of (client_of_lent walk.now.client.now)
        (spec.blocks_ahead (client_of_lent walk.now.client.now) walk.now.approvals.now ahead.now)
        state (at.branch_ways walk.now.approvals.now walk.now.levels branches.now position
        before.entry.digest)) }
{
    match branches {
        ClosedBranches::End => Ok(()),
        ClosedBranches::More(branch, rest) => {
            let elements = &branch.policy.elements;
            let rest = &**rest;
            let first = before.first(elements, rest);
            let others = before.behind(elements, rest);
            push_elements(walk, track, elements, first, ahead, found)?;
            push_branches(walk, track, rest, others, ahead, found)
        }
    }
}

// The same of an element that asks for an approval, the rest of its list, before which stands the digest
// `after`, and what comes behind it.
#[cycle(block_list)]
fn push_approvals<'a>(
    walk: &Walk<'_, '_>,
    track: &Track,
    element: &'a ClosedElement,
    rest: &'a ClosedElements,
    after: Before<'a>,
    ahead: &'a Ahead<'a>,
    found: &mut Vec<Option<Block>>,
) -> Result<(), NoMemory>
    requires asks { length (outside_paths element.now) ≡ 1 }
    requires rest { HasFewBranches rest.now }
    requires approved { All (λ document. HasFewBranches document.closed.elements)
        walk.now.approvals.now }
    requires kept { KnowsApproved walk.now }
    requires sight { IsSight walk.now.client.now.sight.now }
    requires ahead { IsSoundAhead ahead.now }
    requires knows { Knows after rest.now }
    ensures { (state : TrackState) → IsTrack track.now state
        → OnOk result (found.new.items ≡ found.old.items
        ++ spec.blocks_of (client_of_lent walk.now.client.now)
        (spec.blocks_rest (client_of_lent walk.now.client.now) walk.now.approvals.now
        walk.now.levels rest.now after.entry.digest ahead.now)
        state (at.approval_ways walk.now.approvals.now walk.now.levels element.now)) }
{
    push_documents(walk, track, element, rest, after, ahead, found)?;
    match outside_approval(element) {
        Some(act) => {
            let next = track.after(walk.client, &act).outside();
            push_elements(walk, &next, rest, after, ahead, found)
        }
        None => Ok(()),
    }
}

// The same of the documents that the element's approver approved.
#[cycle(block_list)]
fn push_documents<'a>(
    walk: &Walk<'_, '_>,
    track: &Track,
    element: &'a ClosedElement,
    rest: &'a ClosedElements,
    after: Before<'a>,
    ahead: &'a Ahead<'a>,
    found: &mut Vec<Option<Block>>,
) -> Result<(), NoMemory>
    requires rest { HasFewBranches rest.now }
    requires approved { All (λ document. HasFewBranches document.closed.elements)
        walk.now.approvals.now }
    requires kept { KnowsApproved walk.now }
    requires sight { IsSight walk.now.client.now.sight.now }
    requires ahead { IsSoundAhead ahead.now }
    requires knows { Knows after rest.now }
    ensures { (state : TrackState) → IsTrack track.now state
        → OnOk result (found.new.items ≡ found.old.items
        ++ spec.blocks_of (client_of_lent walk.now.client.now)
        (spec.blocks_rest (client_of_lent walk.now.client.now) walk.now.approvals.now
        walk.now.levels rest.now after.entry.digest ahead.now)
        state (approved_paths (document_paths walk.now.approvals.now walk.now.levels)
        walk.now.approvals.now element.now)) }
{
    if walk.levels == 0 {
        return Ok(());
    }
    let selection = track.asking(first_of_documents(element, walk.approvals));
    let kept = walk.client.keeping(selection, &track.session.bindings);
    let inner = Walk {
        client: walk.client.or_kept(&kept),
        approvals: walk.approvals,
        memos: walk.memos,
        levels: walk.levels - 1,
    };
    for (index, document) in walk.approvals.iter().enumerate() {
        if let Some(act) = approval(element, document) {
            let behind = Ahead::After {
                act,
                first: None,
                rest: &*rest,
                before: after,
                levels: walk.levels,
                ahead: &*ahead,
            };
            let elements = &document.closed.elements;
            let start = walk.start_of(index);
            push_elements(&inner, track, &*elements, start, &behind, found)?;
        }
    }
    Ok(())
}

// The same of what comes behind a branch or a document.
#[cycle(block_list)]
fn push_ahead<'a>(
    walk: &Walk<'_, '_>,
    track: &Track,
    ahead: &'a Ahead<'a>,
    found: &mut Vec<Option<Block>>,
) -> Result<(), NoMemory>
    requires approved { All (λ document. HasFewBranches document.closed.elements)
        walk.now.approvals.now }
    requires kept { KnowsApproved walk.now }
    requires sight { IsSight walk.now.client.now.sight.now }
    requires ahead { IsSoundAhead ahead.now }
    ensures { (state : TrackState) → IsTrack track.now state
        → OnOk result (found.new.items ≡ found.old.items
        ++ spec.blocks_ahead (client_of_lent walk.now.client.now) walk.now.approvals.now ahead.now
        state) }
{
    match ahead {
        Ahead::Nothing => push_end(walk, track, found),
        Ahead::After {
            act,
            first,
            rest,
            before,
            levels,
            ahead,
        } => {
            let mut next = *track;
            next.add(walk.client, act);
            next.add_first(walk.client, first);
            let outer = Walk {
                levels: *levels,
                ..*walk
            };
            push_elements(&outer, &next, rest, *before, ahead, found)
        }
    }
}

// The same of the end of a way.
fn push_end(
    walk: &Walk<'_, '_>,
    track: &Track,
    found: &mut Vec<Option<Block>>,
) -> Result<(), NoMemory>
    requires sight { IsSight walk.now.client.now.sight.now }
    ensures { (state : TrackState) → IsTrack track.now state
        → OnOk result (found.new.items ≡ found.old.items
        ++ spec.block_at_the_end (client_of_lent walk.now.client.now) state) }
{
    found.push(track.end(walk.client).err())?;
    Ok(())
}
