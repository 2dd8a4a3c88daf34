// What stands in the way of one path of a policy, by its position, without the path.

ghost use Rattle.std.specs.Prelude.{◌≡◌, ◌-◌, ◌<◌, ◌≤◌, All, IfSome, ℕ, length};
ghost use Rattle.std.specs.List.{slice_get};
ghost use Rattle.tpm_rules.specs.Rule.{Breaks};
ghost use Rattle.tpol_choose.specs.Blocks.{first_block};
ghost use Rattle.tpol_choose.specs.Lent.{client_of_lent};
ghost use Rattle.tpol_choose.specs.Tracks.{Goes, IsTrack, TrackState};
ghost use Rattle.tpol_digest.specs.Digest.{digest_at_element};
ghost use Rattle.tpol_digest.specs.Limits.{AreWithinLimits};
ghost use Rattle.tpol_digest.specs.Paths as paths;
ghost use Rattle.tpol_digest.specs.Paths.{paths_of};
ghost use Rattle.tpol_digest.specs.Positions as at;
ghost use Rattle.tpol_choose.specs.Few.{HaveFewBranches};
ghost use Rattle.tpol_name.specs.Setups.{IsSight};
ghost use Rattle.tpol_choose.specs.Few.{HasFewBranches, ElementHasFewBranches, BranchesHaveFewBranches};

use crate::Block;
use crate::act::Act;
use crate::approving::{approval, outside_approval};
use crate::assert_move::AssertMove;
use crate::branch_digests::BranchDigests;
use crate::client::Client;
use crate::or_move::OrMove;
use crate::track::Track;
use crate::walk::Walk;
use tpol_base::Digest32;
use tpol_digest::{MAX_LEVELS, count_element_ways, count_ways, digest_after_element, zero_digest};
use tpol_goal::{Goal, Grants};
use tpol_name::Sight;
use tpol_tree::{Approvals, Closed, ClosedBranches, ClosedElement, ClosedElements};

/// The same as `can` for the path of a policy at a position, from 1 (see `tpol_digest::path_at`). The path is
/// not made: the policy is walked to it, and no memory is taken.
pub fn block_at<'a>(
    policy: &Closed,
    approvals: &'a Approvals,
    position: u32,
    sight: &'a Sight,
    grants: &'a Grants,
    goal: &'a Goal,
    locality: u8,
) -> Result<(), Block>
    requires few { HaveFewBranches policy.now approvals.now }
    requires within { AreWithinLimits (paths_of policy.now approvals.now) }
    requires positions { (1 ≤ position) × (position ≤ length (paths_of policy.now approvals.now)) }
    requires sight { IsSight sight.now }
    ensures block { IfSome (slice_get (paths_of policy.now approvals.now) (position - 1))
        (λ path. Breaks result (first_block path sight.now grants.now goal.now locality)) }
{
    let client = Client::new(sight, grants, goal, locality);
    let walk = Walk {
        client: &client,
        approvals: approvals.as_slice(),
        memos: None,
        levels: MAX_LEVELS,
    };
    block_at_index(&walk, policy, u64::from(position - 1))
}

// The same by the index of the path, from 0.
fn block_at_index(walk: &Walk<'_, '_>, policy: &Closed, index: u64) -> Result<(), Block>
    requires branches { HasFewBranches policy.now.elements }
    requires approved { All (λ document. HasFewBranches document.closed.elements)
        walk.now.approvals.now }
    requires sight { IsSight walk.now.client.now.sight.now }
    requires levels { walk.now.levels ≡ 4 }
    requires within { AreWithinLimits (paths_of policy.now walk.now.approvals.now) }
    requires inside { index < length (paths_of policy.now walk.now.approvals.now) }
    ensures { IfSome (slice_get (paths_of policy.now walk.now.approvals.now) index)
        (λ path. Breaks result (first_block path walk.now.client.now.sight.now
        walk.now.client.now.grants.now walk.now.client.now.goal.now walk.now.client.now.locality)) }
{
    let count = count_ways(walk.approvals, walk.levels, &policy.elements);
    let track = Track::new(walk.client);
    let track = go_elements(walk, track, &policy.elements, zero_digest(), index, count);
    track.end(walk.client)
}

// The track behind the way through elements that has an index among their `count` ways, where `before` is the
// digest before the elements.
#[cycle(at_position)]
fn go_elements(
    walk: &Walk<'_, '_>,
    track: Track,
    elements: &ClosedElements,
    before: Digest32,
    index: u64,
    count: u64,
) -> Track
    requires branches { HasFewBranches elements.now }
    requires approved { All (λ document. HasFewBranches document.closed.elements)
        walk.now.approvals.now }
    requires sight { IsSight walk.now.client.now.sight.now }
    requires counted { count ≡ length
        (at.element_list_ways walk.now.approvals.now walk.now.levels elements.now before) }
    requires few { count ≤ 65536 }
    requires inside { index < count }
    ensures { (state : TrackState) → IsTrack track state
        → Goes (client_of_lent walk.now.client.now) state
        (at.element_list_ways walk.now.approvals.now walk.now.levels elements.now before) index
        result }
{
    match elements {
        ClosedElements::End => track,
        ClosedElements::More(element, rest) => {
            let choices = count_element_ways(walk.approvals, walk.levels, element);
            let behind = count / choices;
            let middle = go_element(walk, track, element, before, index / behind);
            go_elements(
                walk,
                middle.track,
                rest,
                middle.digest,
                index % behind,
                behind,
            )
        }
    }
}

// The track behind one element, and the policy's digest there.
#[derive(Clone, Copy)]
struct Behind {
    track: Track,
    digest: Digest32,
}

// The same of one element, and the digest behind it.
#[cycle(at_position)]
fn go_element(
    walk: &Walk<'_, '_>,
    track: Track,
    element: &ClosedElement,
    before: Digest32,
    index: u64,
) -> Behind
    requires branches { ElementHasFewBranches element.now }
    requires approved { All (λ document. HasFewBranches document.closed.elements)
        walk.now.approvals.now }
    requires sight { IsSight walk.now.client.now.sight.now }
    requires few { length (at.element_ways walk.now.approvals.now walk.now.levels element.now
        before) ≤ 65536 }
    requires inside { index < length
        (at.element_ways walk.now.approvals.now walk.now.levels element.now before) }
    ensures track { (state : TrackState) → IsTrack track state
        → Goes (client_of_lent walk.now.client.now) state
        (at.element_ways walk.now.approvals.now walk.now.levels element.now before) index
        result.track }
    ensures digest { result.digest ≡ digest_at_element element.now before }
{
    match element {
        ClosedElement::Assert(assertion) => {
            let step = AssertMove::new(assertion, before);
            Behind {
                track: track.after(walk.client, &Act::Assert(step)),
                digest: step.after,
            }
        }
        ClosedElement::Or(branches) => {
            let digests = BranchDigests::of(branches, before);
            let inner = go_branches(walk, track, branches, before, index);
            let or = OrMove::new(digests.as_slice());
            Behind {
                track: inner.after(walk.client, &Act::Or(or)),
                digest: or.after,
            }
        }
        ClosedElement::Authorize { .. } | ClosedElement::AuthorizeNv { .. } => Behind {
            track: go_approval(walk, track, element, index),
            digest: digest_after_element(element, before),
        },
    }
}

// The same of branches, without the move of their OR. Their positions do not matter.
#[cycle(at_position)]
fn go_branches(
    walk: &Walk<'_, '_>,
    track: Track,
    branches: &ClosedBranches,
    before: Digest32,
    index: u64,
) -> Track
    requires branches { BranchesHaveFewBranches branches.now }
    requires approved { All (λ document. HasFewBranches document.closed.elements)
        walk.now.approvals.now }
    requires sight { IsSight walk.now.client.now.sight.now }
    requires few { length (at.branch_ways walk.now.approvals.now walk.now.levels branches.now 1
        before) ≤ 65536 }
    requires inside { index < length
        (at.branch_ways walk.now.approvals.now walk.now.levels branches.now 1 before) }
    ensures { (state : TrackState) (position : ℕ) → IsTrack track state
        → Goes (client_of_lent walk.now.client.now) state
        (at.branch_ways walk.now.approvals.now walk.now.levels branches.now position before) index
        result }
{
    match branches {
        ClosedBranches::End => track,
        ClosedBranches::More(branch, rest) => {
            let elements = &branch.policy.elements;
            let count = count_ways(walk.approvals, walk.levels, elements);
            if index < count {
                go_elements(walk, track, elements, before, index, count)
            } else {
                go_branches(walk, track, rest, before, index - count)
            }
        }
    }
}

// The same of an element that asks for an approval.
#[cycle(at_position)]
fn go_approval(walk: &Walk<'_, '_>, track: Track, element: &ClosedElement, index: u64) -> Track
    requires approved { All (λ document. HasFewBranches document.closed.elements)
        walk.now.approvals.now }
    requires sight { IsSight walk.now.client.now.sight.now }
    requires few { length (at.approval_ways walk.now.approvals.now walk.now.levels element.now)
        ≤ 65536 }
    requires inside { index < length
        (at.approval_ways walk.now.approvals.now walk.now.levels element.now) }
    ensures { (state : TrackState) → IsTrack track state
        → Goes (client_of_lent walk.now.client.now) state
        (at.approval_ways walk.now.approvals.now walk.now.levels element.now) index result }
{
    let mut left = index;
    if walk.levels > 0 {
        let inner = Walk {
            levels: walk.levels - 1,
            ..*walk
        };
        for document in walk.approvals {
            if let Some(act) = approval(element, document) {
                let elements = &document.closed.elements;
                let count = count_ways(walk.approvals, inner.levels, elements);
                if left < count {
                    let behind = go_elements(&inner, track, elements, zero_digest(), left, count);
                    return behind.after(walk.client, &act);
                }
                left -= count;
            }
        }
    }
    go_outside(walk, track, element)
}

// The same of the way by a policy that no listed document has.
fn go_outside(walk: &Walk<'_, '_>, track: Track, element: &ClosedElement) -> Track
    requires sight { IsSight walk.now.client.now.sight.now }
    requires some { 0 < length (paths.outside_paths element.now) }
    ensures { (state : TrackState) → IsTrack track state
        → Goes (client_of_lent walk.now.client.now) state
        (paths.outside_paths element.now) 0 result }
{
    match outside_approval(element) {
        Some(act) => track.after(walk.client, &act).outside(),
        None => track,
    }
}
