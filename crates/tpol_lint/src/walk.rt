// One walk through a policy, which finds its dead ways without making them. It hashes nothing.

ghost use Rattle.std.specs.Prelude.{◌≡◌, OnOk};
ghost use Rattle.tpol_digest.specs.Images.{both};
ghost use Rattle.tpol_lint.specs.Traces.{Finds, IsTrack, Trace, approval_traces, branch_traces, element_list_traces, join, traces_ahead};

use crate::finder::Finder;
use crate::track::Track;
use tpol_base::NoMemory;
use tpol_digest::accepts;
use tpol_tree::{ApprovedDoc, ClosedBranches, ClosedElement, ClosedElements};

// The approved documents, which may be entered `levels` deep where the walk is.
#[derive(Clone, Copy)]
pub struct Scope<'a> {
    pub approvals: &'a [ApprovedDoc],
    pub levels: u8,
}

// What comes behind the branch, or the document, that is walked: the policy command that closes it, the rest
// of the list that it stands in, in which documents may be entered `levels` deep, and what comes behind that.
#[derive(Clone, Copy)]
pub enum Ahead<'a> {
    Nothing,
    After {
        rest: &'a ClosedElements,
        levels: u8,
        ahead: &'a Ahead<'a>,
    },
}

// Passes all ways through elements and what comes behind them.
#[cycle(walk)]
pub fn find_in_elements(
    scope: &Scope<'_>,
    finder: &mut Finder,
    track: Track,
    elements: &ClosedElements,
    ahead: &Ahead<'_>,
) -> Result<(), NoMemory>
    ensures finds { (before : Trace) → IsTrack track before
        → OnOk result (Finds finder.old finder.new before (both join
        (element_list_traces scope.now.approvals.now scope.now.levels elements.now)
        (traces_ahead scope.now.approvals.now ahead.now))) }
{
    match elements {
        ClosedElements::End => find_ahead(scope, finder, track, ahead),
        ClosedElements::More(element, rest) => {
            let behind = Ahead::After {
                rest: &*rest,
                levels: scope.levels,
                ahead: &*ahead,
            };
            match &**element {
                ClosedElement::Assert(assertion) => {
                    find_in_elements(scope, finder, track.after(assertion)?, rest, ahead)
                }
                ClosedElement::Or(branches) => {
                    find_in_branches(scope, finder, track, branches, &behind)
                }
                ClosedElement::Authorize { .. } => {
                    find_in_approvals(scope, finder, track, element, &behind)
                }
                ClosedElement::AuthorizeNv { .. } => {
                    find_in_approvals(scope, finder, track, element, &behind)
                }
            }
        }
    }
}

// The same of the branches of an OR.
#[cycle(walk)]
fn find_in_branches(
    scope: &Scope<'_>,
    finder: &mut Finder,
    track: Track,
    branches: &ClosedBranches,
    ahead: &Ahead<'_>,
) -> Result<(), NoMemory>
    ensures finds { (before : Trace) → IsTrack track before
        → OnOk result (Finds finder.old finder.new before (both join
        (branch_traces scope.now.approvals.now scope.now.levels branches.now)
        (traces_ahead scope.now.approvals.now ahead.now))) }
{
    match branches {
        ClosedBranches::End => Ok(()),
        ClosedBranches::More(branch, rest) => {
            find_in_elements(scope, finder, track, &branch.policy.elements, ahead)?;
            find_in_branches(scope, finder, track, rest, ahead)
        }
    }
}

// The same of the documents that the element's approver approved, and of the way by another policy.
#[cycle(walk)]
fn find_in_approvals(
    scope: &Scope<'_>,
    finder: &mut Finder,
    track: Track,
    element: &ClosedElement,
    ahead: &Ahead<'_>,
) -> Result<(), NoMemory>
    ensures finds { (before : Trace) → IsTrack track before
        → OnOk result (Finds finder.old finder.new before (both join
        (approval_traces scope.now.approvals.now scope.now.levels element.now)
        (traces_ahead scope.now.approvals.now ahead.now))) }
{
    if scope.levels > 0 {
        let inside = Scope {
            approvals: scope.approvals,
            levels: scope.levels - 1,
        };
        for document in scope.approvals {
            if accepts(element, document) {
                find_in_elements(&inside, finder, track, &document.closed.elements, ahead)?;
            }
        }
    }
    find_ahead(scope, finder, track.by_outside(), ahead)
}

// The same of what comes behind a branch or a document.
#[cycle(walk)]
fn find_ahead(
    scope: &Scope<'_>,
    finder: &mut Finder,
    track: Track,
    ahead: &Ahead<'_>,
) -> Result<(), NoMemory>
    ensures finds { (before : Trace) → IsTrack track before
        → OnOk result (Finds finder.old finder.new before
        (traces_ahead scope.now.approvals.now ahead.now)) }
{
    match ahead {
        Ahead::Nothing => finder.pass(track),
        Ahead::After {
            rest,
            levels,
            ahead,
        } => {
            let behind = Scope {
                approvals: scope.approvals,
                levels: *levels,
            };
            find_in_elements(&behind, finder, track.after_closing()?, rest, ahead)
        }
    }
}
