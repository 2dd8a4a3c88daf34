// The first way through a policy that can be gone, on one walk through it, depth first.

ghost use Rattle.std.specs.Prelude.{◌≡◌, ◌*◌, All, ℕ, length};
ghost use Rattle.tpol_choose.specs.Ahead.{IsSoundAhead, ways_ahead};
ghost use Rattle.tpol_choose.specs.Kept.{KnowsApproved};
ghost use Rattle.tpol_choose.specs.Lent.{client_of_lent};
ghost use Rattle.tpol_choose.specs.Searches as spec;
ghost use Rattle.tpol_choose.specs.Tracks.{IsTrack, TrackState, fresh_track};
ghost use Rattle.tpol_choose.specs.declared.searching.Search.TheVariants as found;
ghost use Rattle.tpol_digest.specs.Digest.{digest_at_element, zero_digest as no_digest};
ghost use Rattle.tpol_digest.specs.Extent.{document_extent, extent_at};
ghost use Rattle.tpol_digest.specs.Memos.{Knows, KnowsBranches, KnowsFirst};
ghost use Rattle.tpol_digest.specs.Paths.{approved_paths, document_paths, outside_paths, paths_of};
ghost use Rattle.tpol_digest.specs.Positions as at;
ghost use Rattle.tpol_name.specs.Setups.{IsSight};
ghost use Rattle.tpol_tree.specs.declared.closed.ClosedElement.TheVariants.{Or as OneOr};
ghost use Rattle.tpol_choose.specs.Few.{HasFewBranches, ElementHasFewBranches, BranchesHaveFewBranches};

use crate::act::Act;
use crate::ahead::{Ahead, COUNTED, count_ahead};
use crate::approving::approval;
use crate::assert_move::AssertMove;
use crate::lead::Lead;
use crate::or_digests::OrDigests;
use crate::or_move::OrMove;
use crate::selection::{first_of_branches, first_of_documents};
use crate::track::Track;
use crate::walk::Walk;
use tpol_digest::{Before, BeforeBranches, count_ways_with_memo};
use tpol_tree::{Closed, ClosedBranches, ClosedElement, ClosedElements};

// How far a search is: at the index, from 0, of a way that can be gone; or past so many ways, counted to
// `COUNTED`, none of which can.
#[derive(Clone, Copy)]
pub enum Search {
    Found(u64),
    Passed(u64),
}

// Looks for the first way through a policy that can be gone; `before` is the digest before it.
pub fn search_policy(walk: &Walk<'_, '_>, policy: &Closed, before: Before<'_>) -> Search
    requires branches { HasFewBranches policy.now.elements }
    requires approved { All (λ document. HasFewBranches document.closed.elements)
        walk.now.approvals.now }
    requires kept { KnowsApproved walk.now }
    requires sight { IsSight walk.now.client.now.sight.now }
    requires levels { walk.now.levels ≡ 4 }
    requires start { before.digest ≡ no_digest }
    requires knows { Knows before policy.now.elements }
    ensures found { result ≡ spec.search_ways (client_of_lent walk.now.client.now)
        (spec.search_end (client_of_lent walk.now.client.now))
        (fresh_track (client_of_lent walk.now.client.now)) 0
        (paths_of policy.now walk.now.approvals.now) }
    ensures counted { spec.IsCounted result }
{
    let track = Track::new(walk.client);
    search_elements(walk, &track, &policy.elements, before, &Ahead::Nothing, 0)
}

// Goes on with a search, from a track that has passed so many ways, through all ways through elements and
// what comes behind them; `before` is the digest before the elements.
#[cycle(searching)]
fn search_elements<'a>(
    walk: &Walk<'_, '_>,
    track: &Track,
    elements: &'a ClosedElements,
    before: Before<'a>,
    ahead: &'a Ahead<'a>,
    passed: u64,
) -> Search
    requires branches { HasFewBranches elements.now }
    requires approved { All (λ document. HasFewBranches document.closed.elements)
        walk.now.approvals.now }
    requires kept { KnowsApproved walk.now }
    requires sight { IsSight walk.now.client.now.sight.now }
    requires ahead { IsSoundAhead ahead.now }
    requires knows { Knows before elements.now }
    ensures { (state : TrackState) → IsTrack track.now state
        → result ≡ spec.search_ways (client_of_lent walk.now.client.now)
        (spec.search_ahead (client_of_lent walk.now.client.now) walk.now.approvals.now ahead.now)
        state passed (at.element_list_ways walk.now.approvals.now walk.now.levels elements.now
        before.entry.digest) }
{
    if track.is_hopeless(walk.client) {
        return pass_over(walk, elements, &before, ahead, passed);
    }
    match elements {
        ClosedElements::End => search_ahead(walk, track, ahead, passed),
        ClosedElements::More(element, rest) => {
            search_element(walk, track, element, rest, before, ahead, passed)
        }
    }
}

// The same of one element, the rest of its list and what comes behind it.
#[cycle(searching)]
fn search_element<'a>(
    walk: &Walk<'_, '_>,
    track: &Track,
    element: &'a ClosedElement,
    rest: &'a ClosedElements,
    before: Before<'a>,
    ahead: &'a Ahead<'a>,
    passed: u64,
) -> Search
    requires branches { ElementHasFewBranches element.now }
    requires rest { HasFewBranches rest.now }
    requires approved { All (λ document. HasFewBranches document.closed.elements)
        walk.now.approvals.now }
    requires kept { KnowsApproved walk.now }
    requires sight { IsSight walk.now.client.now.sight.now }
    requires ahead { IsSoundAhead ahead.now }
    requires knows { KnowsFirst before element.now rest.now }
    ensures { (state : TrackState) → IsTrack track.now state
        → result ≡ spec.search_ways (client_of_lent walk.now.client.now)
        (spec.search_rest (client_of_lent walk.now.client.now) walk.now.approvals.now
        walk.now.levels rest.now (digest_at_element element.now before.entry.digest) ahead.now)
        state passed (at.element_ways walk.now.approvals.now walk.now.levels element.now
        before.entry.digest) }
{
    match element {
        ClosedElement::Assert(assertion) => {
            let after = before.behind(element, rest);
            let step = AssertMove::with_after(assertion, before.digest, after.digest);
            let mut next = *track;
            next.add(walk.client, &Act::Assert(step));
            search_elements(walk, &next, rest, after, ahead, passed)
        }
        ClosedElement::Or(branches) => {
            search_or(walk, track, element, branches, rest, before, ahead, passed)
        }
        ClosedElement::Authorize { .. } | ClosedElement::AuthorizeNv { .. } => {
            let after = before.behind(element, rest);
            search_approvals(walk, track, element, rest, after, ahead, passed)
        }
    }
}

// The same of an OR, the rest of its list and what comes behind it. A function of its own, so that what it keeps is not
// made for the other elements.
#[cycle(searching)]
fn search_or<'a>(
    walk: &Walk<'_, '_>,
    track: &Track,
    element: &'a ClosedElement,
    branches: &'a ClosedBranches,
    rest: &'a ClosedElements,
    before: Before<'a>,
    ahead: &'a Ahead<'a>,
    passed: u64,
) -> Search
    requires or { element.now ≡ OneOr branches.now }
    requires branches { ElementHasFewBranches (OneOr branches.now) }
    requires rest { HasFewBranches rest.now }
    requires approved { All (λ document. HasFewBranches document.closed.elements)
        walk.now.approvals.now }
    requires kept { KnowsApproved walk.now }
    requires sight { IsSight walk.now.client.now.sight.now }
    requires ahead { IsSoundAhead ahead.now }
    requires knows { KnowsFirst before (OneOr branches.now) rest.now }
    ensures { (state : TrackState) → IsTrack track.now state
        → result ≡ spec.search_ways (client_of_lent walk.now.client.now)
        (spec.search_rest (client_of_lent walk.now.client.now) walk.now.approvals.now
        walk.now.levels rest.now (digest_at_element (OneOr branches.now) before.entry.digest)
        ahead.now)
        state passed (at.element_ways walk.now.approvals.now walk.now.levels
        (OneOr branches.now) before.entry.digest) }
{
    let digests = OrDigests::of(&before, branches, rest);
    let after = digests.behind(&before, element, rest);
    let or = OrMove::with_after(digests.as_slice(), after.digest);
    let lead = Lead::of(rest, after);
    let inner = before.within(branches, rest);
    let behind = Ahead::After {
        act: Act::Or(or),
        first: lead.first,
        rest: lead.rest,
        before: lead.before,
        levels: walk.levels,
        ahead: &*ahead,
    };
    let selection = first_of_branches(branches);
    let kept = walk.client.keeping(selection, &track.session.bindings);
    let among = Walk {
        client: walk.client.or_kept(&kept),
        approvals: walk.approvals,
        memos: walk.memos,
        levels: walk.levels,
    };
    search_branches(&among, track, &*branches, inner, &behind, passed)
}

// The same of branches and what comes behind them. Their positions do not matter.
#[cycle(searching)]
fn search_branches<'a>(
    walk: &Walk<'_, '_>,
    track: &Track,
    branches: &'a ClosedBranches,
    before: BeforeBranches<'a>,
    ahead: &'a Ahead<'a>,
    passed: u64,
) -> Search
    requires branches { BranchesHaveFewBranches branches.now }
    requires approved { All (λ document. HasFewBranches document.closed.elements)
        walk.now.approvals.now }
    requires kept { KnowsApproved walk.now }
    requires sight { IsSight walk.now.client.now.sight.now }
    requires ahead { IsSoundAhead ahead.now }
    requires knows { KnowsBranches before branches.now }
    ensures { (state : TrackState) (position : ℕ) → IsTrack track.now state
        → result ≡ spec.search_ways (client_of_lent walk.now.client.now)
        (spec.search_ahead (client_of_lent walk.now.client.now) walk.now.approvals.now ahead.now)
        state passed (at.branch_ways walk.now.approvals.now walk.now.levels branches.now position
        before.entry.digest) }
{
    match branches {
        ClosedBranches::End => Search::Passed(passed),
        ClosedBranches::More(branch, rest) => {
            let elements = &branch.policy.elements;
            let rest = &**rest;
            let first = before.first(elements, rest);
            match search_elements(walk, track, elements, first, ahead, passed) {
                Search::Found(index) => Search::Found(index),
                Search::Passed(more) => {
                    let others = before.behind(elements, rest);
                    search_branches(walk, track, rest, others, ahead, more)
                }
            }
        }
    }
}

// The same of an element that asks for an approval, the rest of its list, before which stands the digest
// `after`, and what comes behind it. The way by a policy that no listed document has can not be gone.
#[cycle(searching)]
fn search_approvals<'a>(
    walk: &Walk<'_, '_>,
    track: &Track,
    element: &'a ClosedElement,
    rest: &'a ClosedElements,
    after: Before<'a>,
    ahead: &'a Ahead<'a>,
    passed: u64,
) -> Search
    requires asks { length (outside_paths element.now) ≡ 1 }
    requires rest { HasFewBranches rest.now }
    requires approved { All (λ document. HasFewBranches document.closed.elements)
        walk.now.approvals.now }
    requires kept { KnowsApproved walk.now }
    requires sight { IsSight walk.now.client.now.sight.now }
    requires ahead { IsSoundAhead ahead.now }
    requires knows { Knows after rest.now }
    ensures { (state : TrackState) → IsTrack track.now state
        → result ≡ spec.search_ways (client_of_lent walk.now.client.now)
        (spec.search_rest (client_of_lent walk.now.client.now) walk.now.approvals.now
        walk.now.levels rest.now after.entry.digest ahead.now)
        state passed (at.approval_ways walk.now.approvals.now walk.now.levels element.now) }
{
    match search_documents(walk, track, element, rest, after, ahead, passed) {
        Search::Found(index) => Search::Found(index),
        Search::Passed(more) => pass_over(walk, rest, &after, ahead, more),
    }
}

// The same of the documents that the element's approver approved.
#[cycle(searching)]
fn search_documents<'a>(
    walk: &Walk<'_, '_>,
    track: &Track,
    element: &'a ClosedElement,
    rest: &'a ClosedElements,
    after: Before<'a>,
    ahead: &'a Ahead<'a>,
    passed: u64,
) -> Search
    requires rest { HasFewBranches rest.now }
    requires approved { All (λ document. HasFewBranches document.closed.elements)
        walk.now.approvals.now }
    requires kept { KnowsApproved walk.now }
    requires sight { IsSight walk.now.client.now.sight.now }
    requires ahead { IsSoundAhead ahead.now }
    requires knows { Knows after rest.now }
    ensures { (state : TrackState) → IsTrack track.now state
        → result ≡ spec.search_ways (client_of_lent walk.now.client.now)
        (spec.search_rest (client_of_lent walk.now.client.now) walk.now.approvals.now
        walk.now.levels rest.now after.entry.digest ahead.now)
        state passed (approved_paths
        (document_paths walk.now.approvals.now walk.now.levels) walk.now.approvals.now
        element.now) }
{
    if walk.levels == 0 {
        return Search::Passed(passed);
    }
    let selection = first_of_documents(element, walk.approvals);
    let kept = walk.client.keeping(selection, &track.session.bindings);
    let inner = Walk {
        client: walk.client.or_kept(&kept),
        approvals: walk.approvals,
        memos: walk.memos,
        levels: walk.levels - 1,
    };
    let mut so_far = passed;
    for (index, document) in walk.approvals.iter().enumerate() {
        if let Some(act) = approval(element, document) {
            let behind = Ahead::After {
                act,
                first: None,
                rest: &*rest,
                before: after,
                levels: walk.levels,
                ahead: &*ahead,
            };
            let elements = &document.closed.elements;
            let start = walk.start_of(index);
            match search_elements(&inner, track, &*elements, start, &behind, so_far) {
                Search::Found(index) => return Search::Found(index),
                Search::Passed(more) => so_far = more,
            }
        }
    }
    Search::Passed(so_far)
}

// The same of what comes behind a branch or a document.
#[cycle(searching)]
fn search_ahead<'a>(walk: &Walk<'_, '_>, track: &Track, ahead: &'a Ahead<'a>, passed: u64) -> Search
    requires approved { All (λ document. HasFewBranches document.closed.elements)
        walk.now.approvals.now }
    requires kept { KnowsApproved walk.now }
    requires sight { IsSight walk.now.client.now.sight.now }
    requires ahead { IsSoundAhead ahead.now }
    ensures { (state : TrackState) → IsTrack track.now state
        → result ≡ spec.search_ahead
        (client_of_lent walk.now.client.now) walk.now.approvals.now ahead.now state passed }
{
    match ahead {
        Ahead::Nothing => search_end(walk, track, passed),
        Ahead::After {
            act,
            first,
            rest,
            before,
            levels,
            ahead,
        } => {
            let mut next = *track;
            next.add(walk.client, act);
            next.add_first(walk.client, first);
            let outer = Walk {
                levels: *levels,
                ..*walk
            };
            search_elements(&outer, &next, rest, *before, ahead, passed)
        }
    }
}

// The same of the end of a way.
fn search_end(walk: &Walk<'_, '_>, track: &Track, passed: u64) -> Search
    requires sight { IsSight walk.now.client.now.sight.now }
    ensures { (state : TrackState) → IsTrack track.now state
        → result ≡ spec.search_end (client_of_lent walk.now.client.now) state passed }
{
    if track.end(walk.client).is_ok() {
        Search::Found(passed)
    } else {
        Search::Passed(passed.saturating_add(1).min(COUNTED))
    }
}

// Passes over all ways through elements, before which stands the digest `before`, and what comes behind them.
fn pass_over(
    walk: &Walk<'_, '_>,
    elements: &ClosedElements,
    before: &Before<'_>,
    ahead: &Ahead<'_>,
    passed: u64,
) -> Search
    requires knows { Knows before.now elements.now }
    requires ahead { IsSoundAhead ahead.now }
    ensures { result ≡ found.Passed (spec.passed_more passed
        ((extent_at (document_extent walk.now.approvals.now walk.now.levels) walk.now.approvals.now
        elements.now).paths
        * ways_ahead walk.now.approvals.now ahead.now)) }
{
    let first = count_ways_with_memo(walk.approvals, walk.levels, elements, before);
    let behind = count_ahead(walk.approvals, ahead);
    let ways = first.saturating_mul(behind);
    if ways == 0 {
        return Search::Passed(passed);
    }
    Search::Passed(passed.saturating_add(ways).min(COUNTED))
}
