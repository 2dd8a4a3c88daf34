// From the facts of a session back to the path that they went.

ghost use Rattle.std.specs.Prelude.{◌≡◌, ◌<◌, true, All, IfOk, IfSome};
ghost use Rattle.tpol_digest.specs.Digest.{digest_of_moves, policy_digest, zero_digest};
ghost use Rattle.tpol_digest.specs.Limits.{AreWithinLimits};
ghost use Rattle.tpol_digest.specs.Memos.{IsMemo};
ghost use Rattle.tpol_digest.specs.Paths.{paths_of};
ghost use Rattle.tpol_digest.specs.Sound.{IsSound};
ghost use Rattle.tpol_tree.specs.Facts.{moves_of};
ghost use Rattle.tpol_digest.specs.WellFormed.{IsWellFormed};
ghost use Rattle.tpol_tree.specs.Closed.{ApprovalsLead};
ghost use Rattle.tpol_trace.specs.Openings as spec;
ghost use Rattle.tpol_trace.specs.Tables.{AllAsk};

use crate::asked::Asked;
use crate::broken::broken_opening;
use crate::walk::{Walk, ways_of_policy};
use crate::ways::Ways;
use crate::{Events, Opening};
use std::alloc::Global;
use tpol_base::NoMemory;
use tpol_digest::{MAX_LEVELS, Memo, memo_of};
use tpol_tree::{Approvals, Closed, Fact, Facts};

/// By which written path the facts of a session lead to the digest of a policy: the first path that they
/// went, with the event numbers of all facts. Where no path matches, it is the first pair of different
/// strings of one SHA-256 digest, or else the first string of digest zero, among what is hashed for the
/// policy, its approved documents and the facts; each is handed out in full.
///
/// The facts are walked with the policy, from the end of both, and no list of paths is made.
pub fn opening(
    alloc: Global,
    policy: &Closed,
    approvals: &Approvals,
    facts: &Facts,
) -> Result<Opening, NoMemory>
    requires within { AreWithinLimits (paths_of policy.now approvals.now) }
    requires well_formed { IsWellFormed policy.now approvals.now }
    requires sound { IsSound (moves_of facts.now) }
    requires digest { digest_of_moves (moves_of facts.now) ≡ policy_digest policy.now }
    ensures opening { IfOk result (λ opening. spec.opening_of policy.now approvals.now facts.now
        ≡ Some opening) }
    ensures means { IfOk result
        (λ opening. spec.IsOpening policy.now approvals.now facts.now opening) }
{
    let memo = memo_of(alloc, policy)?;
    opening_with_memo(alloc, policy, &memo, approvals, facts)
}

/// The same, where `memo` has the digests of the policy (`tpol_digest::memo_of`). The walk hashes nothing for
/// the policy's own elements; approved documents are hashed as they are walked.
pub fn opening_with_memo(
    alloc: Global,
    policy: &Closed,
    memo: &Memo,
    approvals: &Approvals,
    facts: &Facts,
) -> Result<Opening, NoMemory>
    requires memo { IsMemo policy.now.elements zero_digest memo.now }
    requires within { AreWithinLimits (paths_of policy.now approvals.now) }
    requires well_formed { IsWellFormed policy.now approvals.now }
    requires sound { IsSound (moves_of facts.now) }
    requires digest { digest_of_moves (moves_of facts.now) ≡ policy_digest policy.now }
    ensures opening { IfOk result (λ opening. spec.opening_of policy.now approvals.now facts.now
        ≡ Some opening) }
    ensures means { IfOk result
        (λ opening. spec.IsOpening policy.now approvals.now facts.now opening) }
{
    match first_match(alloc, policy, memo, approvals, facts)? {
        Some(index) => {
            let events = events_of(alloc, facts.as_slice())?;
            Ok(Opening::Branch {
                path: index + 1,
                events,
            })
        }
        None => broken_opening(alloc, policy, approvals, facts),
    }
}

// The first path that the facts went, counted from 0.
fn first_match(
    alloc: Global,
    policy: &Closed,
    memo: &Memo,
    approvals: &Approvals,
    facts: &Facts,
) -> Result<Option<u32>, NoMemory>
    requires memo { IsMemo policy.now.elements zero_digest memo.now }
    requires within { AreWithinLimits (paths_of policy.now approvals.now) }
    requires lead { ApprovalsLead true policy.now.elements }
    requires documents { All (λ document. ApprovalsLead true document.closed.elements)
        approvals.now }
    ensures index { IfOk result (λ found. found
        ≡ spec.first_match policy.now approvals.now facts.now) }
    ensures few { IfOk result (λ found. IfSome found (λ index. index < 65536)) }
{
    let asked = asked_facts(alloc, facts.as_slice())?;
    let walk = Walk {
        alloc,
        approvals: approvals.as_slice(),
        facts: &asked,
        levels: MAX_LEVELS,
    };
    let end = Ways::end(alloc, &asked)?;
    let ways = ways_of_policy(&walk, &policy.elements, memo, end)?;
    Ok(ways.first[0])
}

// What the facts' moves hash and approve.
fn asked_facts(alloc: Global, facts: &[Fact]) -> Result<Vec<Asked>, NoMemory>
    ensures { IfOk result (λ asked. AllAsk asked.items (moves_of facts.now)) }
{
    let mut asked = Vec::with_capacity(alloc, facts.len())?;
    for fact in facts {
        asked.push(Asked::of_move(alloc, &fact.act)?)?;
    }
    Ok(asked)
}

// The facts' event numbers.
fn events_of(alloc: Global, facts: &[Fact]) -> Result<Events, NoMemory>
    ensures { IfOk result (λ events. events ≡ spec.events_of facts.now) }
{
    let mut events = Vec::with_capacity(alloc, facts.len())?;
    for fact in facts {
        events.push(fact.event)?;
    }
    Ok(Events::from_vec(events))
}
