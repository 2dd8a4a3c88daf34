// The walk through a policy and the facts together, from the end of both to their beginning.

ghost use Rattle.std.specs.Prelude.{◌≡◌, ◌+◌, ◌++◌, true, false, length, map, nat_lt, All, List, ℕ, IfOk, OnOk};
ghost use Rattle.tpol_base.specs.declared.digest.Digest32.{Digest32 as OneDigest};
ghost use Rattle.tpol_digest.specs.Digest.{branch_digests, digest_at_element, zero_digest};
ghost use Rattle.tpol_digest.specs.Memos.{IsMemo, Knows, KnowsBranches, KnowsFirst};
ghost use Rattle.tpol_digest.specs.Positions as at;
ghost use Rattle.tpol_digest.specs.Paths as spec;
ghost use Rattle.tpol_digest.specs.UpdateBytes.{update_value};
ghost use Rattle.tpol_digest.specs.Update.{update_of};
ghost use Rattle.tpol_tree.specs.Closed.{ApprovalsLead, ApprovalsLeadElement, ApprovalsLeadBranches};
ghost use Rattle.tpol_tree.specs.declared.closed.ClosedElement.TheVariants.{Or as OneOr};
ghost use Rattle.tpol_tree.specs.declared.path.Move.{Move as OneMove};
ghost use Rattle.tpol_tree.specs.declared.path.Path.{Path};
ghost use Rattle.tpol_trace.specs.Matching.{is_listed, matches_approval};
ghost use Rattle.tpol_trace.specs.Tables.{AllAsk, AreInside, Asks, earlier, IsApproval, IsTable, move_of_element};

use crate::asked::Asked;
use crate::ways::Ways;
use std::alloc::Global;
use tpol_base::{Digest32, Digests, NoMemory};
use tpol_digest::{
    Before, BeforeBranches, Memo, UpdateBytes, accepts, has_or, push_branch_digests,
    update_of_approve, update_of_approve_nv, update_of_assertion, update_of_or, zero_digest,
};
use tpol_tree::{ApprovedDoc, ClosedBranches, ClosedElement, ClosedElements};

// What a policy is walked with: the approved documents, which may be entered `levels` deep, and the facts.
#[derive(Clone, Copy)]
pub struct Walk<'a> {
    pub alloc: Global,
    pub approvals: &'a [ApprovedDoc],
    pub facts: &'a [Asked],
    pub levels: u8,
}

// The ways through a policy's elements, each before one of the ways behind them; `memo` has the digests of the
// policy, which are looked at only where it has an OR.
pub fn ways_of_policy(
    walk: &Walk<'_>,
    elements: &ClosedElements,
    memo: &Memo,
    behind: Ways,
) -> Result<Ways, NoMemory>
    requires lead { ApprovalsLead true elements.now }
    requires memo { IsMemo elements.now zero_digest memo.now }
    requires documents { All (λ document. ApprovalsLead true document.closed.elements)
        walk.now.approvals.now }
    requires size { length behind.first.items ≡ length walk.now.facts.now + 1 }
    ensures size { IfOk result (λ table. length table.first.items ≡ length walk.now.facts.now + 1) }
    ensures table { (moves : List OneMove) (ways : List Path) → AllAsk walk.now.facts.now moves
        → AreInside ways
        → IsTable walk.now.approvals.now walk.now.levels moves behind ways
        → IfOk result (λ table. IsTable walk.now.approvals.now walk.now.levels moves table
        (spec.product (spec.paths_at
        (spec.document_paths walk.now.approvals.now walk.now.levels) walk.now.approvals.now
        elements.now zero_digest) ways)) }
{
    if has_or(elements) {
        ways_of_elements(walk, elements, &Before::start(memo), behind)
    } else {
        ways_of_unbranched(walk, elements, behind)
    }
}

// The ways through elements, each before one of the ways behind them; `before` has the digest before the
// elements.
#[cycle(walk)]
fn ways_of_elements(
    walk: &Walk<'_>,
    elements: &ClosedElements,
    before: &Before<'_>,
    behind: Ways,
) -> Result<Ways, NoMemory>
    requires lead { ApprovalsLead true elements.now }
    requires knows { Knows before.now elements.now }
    requires documents { All (λ document. ApprovalsLead true document.closed.elements)
        walk.now.approvals.now }
    requires size { length behind.first.items ≡ length walk.now.facts.now + 1 }
    ensures size { IfOk result (λ table. length table.first.items ≡ length walk.now.facts.now + 1) }
    ensures table { (moves : List OneMove) (ways : List Path) → AllAsk walk.now.facts.now moves
        → AreInside ways
        → IsTable walk.now.approvals.now walk.now.levels moves behind ways
        → IfOk result (λ table. IsTable walk.now.approvals.now walk.now.levels moves table
        (spec.product (spec.paths_at
        (spec.document_paths walk.now.approvals.now walk.now.levels) walk.now.approvals.now
        elements.now before.now.digest) ways)) }
{
    match elements {
        ClosedElements::End => Ok(behind),
        ClosedElements::More(element, rest) => {
            let behind = ways_of_rest(walk, element, rest, before, behind)?;
            ways_of_element(walk, element, rest, before, behind)
        }
    }
}

// The ways through the rest of a list behind an element, before which stands the digest of `before`. A
// digest is needed only before the branches of an OR, so where none is kept and no OR comes behind the
// element none is hashed.
#[cycle(walk)]
fn ways_of_rest(
    walk: &Walk<'_>,
    element: &ClosedElement,
    rest: &ClosedElements,
    before: &Before<'_>,
    behind: Ways,
) -> Result<Ways, NoMemory>
    requires lead { ApprovalsLead true rest.now }
    requires knows { KnowsFirst before.now element.now rest.now }
    requires documents { All (λ document. ApprovalsLead true document.closed.elements)
        walk.now.approvals.now }
    requires size { length behind.first.items ≡ length walk.now.facts.now + 1 }
    ensures size { IfOk result (λ table. length table.first.items ≡ length walk.now.facts.now + 1) }
    ensures table { (moves : List OneMove) (ways : List Path) → AllAsk walk.now.facts.now moves
        → AreInside ways
        → IsTable walk.now.approvals.now walk.now.levels moves behind ways
        → IfOk result (λ table. IsTable walk.now.approvals.now walk.now.levels moves table
        (spec.product (spec.paths_at
        (spec.document_paths walk.now.approvals.now walk.now.levels) walk.now.approvals.now rest.now
        (digest_at_element element.now before.now.digest)) ways)) }
{
    if before.memo.is_some() || has_or(rest) {
        ways_of_elements(walk, rest, &before.behind(element, rest), behind)
    } else {
        ways_of_unbranched(walk, rest, behind)
    }
}

// The ways through elements among which no OR stands, each before one of the ways behind them. They are the
// same from any digest.
#[cycle(walk)]
fn ways_of_unbranched(
    walk: &Walk<'_>,
    elements: &ClosedElements,
    behind: Ways,
) -> Result<Ways, NoMemory>
    requires unbranched { at.has_or elements.now ≡ false }
    requires lead { ApprovalsLead true elements.now }
    requires documents { All (λ document. ApprovalsLead true document.closed.elements)
        walk.now.approvals.now }
    requires size { length behind.first.items ≡ length walk.now.facts.now + 1 }
    ensures size { IfOk result (λ table. length table.first.items ≡ length walk.now.facts.now + 1) }
    ensures table { (moves : List OneMove) (before : OneDigest) (ways : List Path)
        → AllAsk walk.now.facts.now moves → AreInside ways
        → IsTable walk.now.approvals.now walk.now.levels moves behind ways
        → IfOk result (λ table. IsTable walk.now.approvals.now walk.now.levels moves table
        (spec.product (spec.paths_at
        (spec.document_paths walk.now.approvals.now walk.now.levels) walk.now.approvals.now
        elements.now before) ways)) }
{
    match elements {
        ClosedElements::End => Ok(behind),
        ClosedElements::More(element, rest) => {
            let behind = ways_of_unbranched(walk, rest, behind)?;
            let before = Before::without_memo(zero_digest());
            ways_of_element(walk, element, rest, &before, behind)
        }
    }
}

// The ways through the element before the rest of its list, each before one of the ways behind it.
#[cycle(walk)]
fn ways_of_element(
    walk: &Walk<'_>,
    element: &ClosedElement,
    rest: &ClosedElements,
    before: &Before<'_>,
    mut behind: Ways,
) -> Result<Ways, NoMemory>
    requires lead { ApprovalsLeadElement true element.now }
    requires knows { KnowsFirst before.now element.now rest.now }
    requires documents { All (λ document. ApprovalsLead true document.closed.elements)
        walk.now.approvals.now }
    requires size { length behind.first.items ≡ length walk.now.facts.now + 1 }
    ensures size { IfOk result (λ table. length table.first.items ≡ length walk.now.facts.now + 1) }
    ensures table { (moves : List OneMove) (ways : List Path) → AllAsk walk.now.facts.now moves
        → AreInside ways
        → IsTable walk.now.approvals.now walk.now.levels moves behind ways
        → IfOk result (λ table. IsTable walk.now.approvals.now walk.now.levels moves table
        (spec.product (spec.paths_at_element
        (spec.document_paths walk.now.approvals.now walk.now.levels) walk.now.approvals.now
        element.now before.now.digest) ways)) }
{
    match element {
        ClosedElement::Assert(assertion) => {
            let update = update_of_assertion(walk.alloc, assertion)?;
            behind.put_behind(walk.facts, &Asked::not_approving(update));
            Ok(behind)
        }
        ClosedElement::Or(branches) => ways_of_or(walk, branches, rest, before, behind),
        ClosedElement::Authorize { .. } | ClosedElement::AuthorizeNv { .. } => {
            ways_of_approval(walk, element, &behind)
        }
    }
}

// The ways through an OR before the rest of its list, each before one of the ways behind it.
#[cycle(walk)]
fn ways_of_or(
    walk: &Walk<'_>,
    branches: &ClosedBranches,
    rest: &ClosedElements,
    before: &Before<'_>,
    mut behind: Ways,
) -> Result<Ways, NoMemory>
    requires lead { ApprovalsLeadBranches true branches.now }
    requires knows { KnowsFirst before.now (OneOr branches.now) rest.now }
    requires documents { All (λ document. ApprovalsLead true document.closed.elements)
        walk.now.approvals.now }
    requires size { length behind.first.items ≡ length walk.now.facts.now + 1 }
    ensures size { IfOk result (λ table. length table.first.items ≡ length walk.now.facts.now + 1) }
    ensures table { (moves : List OneMove) (ways : List Path) → AllAsk walk.now.facts.now moves
        → AreInside ways
        → IsTable walk.now.approvals.now walk.now.levels moves behind ways
        → IfOk result (λ table. IsTable walk.now.approvals.now walk.now.levels moves table
        (spec.product (spec.paths_at_element
        (spec.document_paths walk.now.approvals.now walk.now.levels) walk.now.approvals.now
        (OneOr branches.now) before.now.digest) ways)) }
{
    let digests = digests_of_branches(walk.alloc, branches, rest, before)?;
    let update = update_of_or(walk.alloc, &digests)?;
    behind.put_behind(walk.facts, &Asked::not_approving(update));
    let mut found = Ways::none(walk.alloc, walk.facts)?;
    let within = before.within(branches, rest);
    add_branches(walk, &mut found, branches, &within, &behind)?;
    Ok(found)
}

// The digests of the branches of an OR, as they are kept or else as they are hashed.
fn digests_of_branches(
    alloc: Global,
    branches: &ClosedBranches,
    rest: &ClosedElements,
    before: &Before<'_>,
) -> Result<Digests, NoMemory>
    requires { KnowsFirst before.now (OneOr branches.now) rest.now }
    ensures { IfOk result (λ digests. digests ≡ branch_digests branches.now before.now.digest) }
{
    match before.kept_digests(branches, rest) {
        Some(kept) => Digests::from_slice(alloc, kept),
        None => {
            let mut digests = Digests::new(alloc);
            push_branch_digests(&mut digests, branches, before.digest)?;
            Ok(digests)
        }
    }
}

// The ways through an AUTHORIZE or an AUTHORIZENV, each before one of the ways behind it.
#[cycle(walk)]
fn ways_of_approval(
    walk: &Walk<'_>,
    element: &ClosedElement,
    behind: &Ways,
) -> Result<Ways, NoMemory>
    requires approval { IsApproval element.now }
    requires documents { All (λ document. ApprovalsLead true document.closed.elements)
        walk.now.approvals.now }
    requires size { length behind.now.first.items ≡ length walk.now.facts.now + 1 }
    ensures size { IfOk result (λ table. length table.first.items ≡ length walk.now.facts.now + 1) }
    ensures table { (moves : List OneMove) (ways : List Path) → AllAsk walk.now.facts.now moves
        → AreInside ways
        → IsTable walk.now.approvals.now walk.now.levels moves behind.now ways
        → IfOk result (λ table. IsTable walk.now.approvals.now walk.now.levels moves table
        (spec.product (spec.approved_paths
        (spec.document_paths walk.now.approvals.now walk.now.levels) walk.now.approvals.now
        element.now
        ++ spec.outside_paths element.now) ways)) }
{
    let mut found = Ways::none(walk.alloc, walk.facts)?;
    add_documents(walk, &mut found, element, behind)?;
    found.append(&outside_ways(walk, element, behind)?);
    Ok(found)
}

// Adds the ways through branches, each before one of the ways from their OR on.
#[cycle(walk)]
fn add_branches(
    walk: &Walk<'_>,
    found: &mut Ways,
    branches: &ClosedBranches,
    before: &BeforeBranches<'_>,
    behind: &Ways,
) -> Result<(), NoMemory>
    requires lead { ApprovalsLeadBranches true branches.now }
    requires knows { KnowsBranches before.now branches.now }
    requires documents { All (λ document. ApprovalsLead true document.closed.elements)
        walk.now.approvals.now }
    requires size { length behind.now.first.items ≡ length walk.now.facts.now + 1 }
    requires found_size { length found.old.first.items ≡ length walk.now.facts.now + 1 }
    ensures size { OnOk result (length found.new.first.items ≡ length walk.now.facts.now + 1) }
    ensures table { (moves : List OneMove) (act : OneMove) (position : ℕ) (ways done : List Path)
        → AllAsk walk.now.facts.now moves → AreInside ways
        → IsTable walk.now.approvals.now walk.now.levels moves behind.now
        (map (spec.followed_by (spec.path_of_move act)) ways)
        → IsTable walk.now.approvals.now walk.now.levels moves found.old done
        → OnOk result (IsTable walk.now.approvals.now walk.now.levels moves found.new
        (done ++ spec.product (spec.paths_at_branches
        (spec.document_paths walk.now.approvals.now walk.now.levels) walk.now.approvals.now
        branches.now position act before.now.digest) ways)) }
{
    match branches {
        ClosedBranches::End => Ok(()),
        ClosedBranches::More(branch, rest) => {
            let elements = &branch.policy.elements;
            let first = before.first(elements, rest);
            let ways = ways_of_elements(walk, elements, &first, behind.copy()?)?;
            found.append(&ways);
            add_branches(walk, found, rest, &before.behind(elements, rest), behind)
        }
    }
}

// Adds the ways through the documents that the element's approver approved, each before its approval and
// one of the ways behind the element.
#[cycle(walk)]
fn add_documents(
    walk: &Walk<'_>,
    found: &mut Ways,
    element: &ClosedElement,
    behind: &Ways,
) -> Result<(), NoMemory>
    requires approval { IsApproval element.now }
    requires documents { All (λ document. ApprovalsLead true document.closed.elements)
        walk.now.approvals.now }
    requires size { length behind.now.first.items ≡ length walk.now.facts.now + 1 }
    requires found_size { length found.old.first.items ≡ length walk.now.facts.now + 1 }
    ensures size { OnOk result (length found.new.first.items ≡ length walk.now.facts.now + 1) }
    ensures table { (moves : List OneMove) (ways done : List Path) → AllAsk walk.now.facts.now moves
        → AreInside ways
        → IsTable walk.now.approvals.now walk.now.levels moves behind.now ways
        → IsTable walk.now.approvals.now walk.now.levels moves found.old done
        → OnOk result (IsTable walk.now.approvals.now walk.now.levels moves found.new
        (done ++ spec.product (spec.approved_paths
        (spec.document_paths walk.now.approvals.now walk.now.levels) walk.now.approvals.now
        element.now) ways)) }
{
    if walk.levels == 0 {
        return Ok(());
    }
    let inner = Walk {
        levels: walk.levels - 1,
        ..*walk
    };
    for document in walk.approvals {
        if accepts(element, document) {
            let mut behind = behind.copy()?;
            let update = update_of_approval(walk.alloc, element)?;
            behind.put_behind(walk.facts, &Asked::approving(update, document.digest));
            let elements = &document.closed.elements;
            let before = Before::without_memo(Digest32::ZERO);
            let ways = ways_of_elements(&inner, elements, &before, behind)?;
            found.append(&ways);
        }
    }
    Ok(())
}

// The ways by a policy that no listed document has, each before one of the ways behind the element. They
// begin at any fact that approves such a policy.
fn outside_ways(walk: &Walk<'_>, element: &ClosedElement, behind: &Ways) -> Result<Ways, NoMemory>
    requires approval { IsApproval element.now }
    requires size { length behind.now.first.items ≡ length walk.now.facts.now + 1 }
    ensures size { IfOk result (λ table. length table.first.items ≡ length walk.now.facts.now + 1) }
    ensures table { (moves : List OneMove) (ways : List Path) → AllAsk walk.now.facts.now moves
        → AreInside ways
        → IsTable walk.now.approvals.now walk.now.levels moves behind.now ways
        → IfOk result (λ table. IsTable walk.now.approvals.now walk.now.levels moves table
        (spec.product (spec.outside_paths element.now) ways)) }
{
    let approval = Asked::not_approving(update_of_approval(walk.alloc, element)?);
    let window = behind.window.lower();
    let mut first = None;
    for k in window.from..window.to {
        if approves_outside(walk, element, &approval, &walk.facts[k]) {
            first = earlier(first, behind.first[k + 1]);
        }
    }
    Ways::all_at(walk.alloc, walk.facts, first, behind.count)
}

// Whether the fact approves, for the element, a digest that no document has which could be entered here.
fn approves_outside(
    walk: &Walk<'_>,
    element: &ClosedElement,
    approval: &Asked,
    fact: &Asked,
) -> bool
    requires approval { IsApproval element.now }
    requires hashed { update_value approval.now.update
        ≡ update_of (move_of_element element.now zero_digest) }
    ensures { (approving : OneMove) → Asks fact.now approving → result
        ≡ matches_approval walk.now.approvals.now (nat_lt 0 walk.now.levels)
        (move_of_element element.now zero_digest) approving }
{
    if !approval.hashes_the_same(fact) {
        return false;
    }
    walk.levels == 0 || !is_listed(walk, element, fact)
}

// The lesser of two places.
fn earlier(a: Option<u32>, b: Option<u32>) -> Option<u32>
    ensures { result ≡ earlier a b }
{
    match a {
        None => b,
        Some(i) => match b {
            None => a,
            Some(j) => Some(i.min(j)),
        },
    }
}

// Whether the fact approves the digest of a document that the element's approver approved.
fn is_listed(walk: &Walk<'_>, element: &ClosedElement, fact: &Asked) -> bool
    requires { IsApproval element.now }
    ensures { (approving : OneMove) → Asks fact.now approving
        → result ≡ is_listed walk.now.approvals.now
        (move_of_element element.now zero_digest) approving }
{
    for document in walk.approvals {
        if accepts(element, document) && fact.approves(&document.digest) {
            return true;
        }
    }
    false
}

// What an AUTHORIZE or an AUTHORIZENV hashes.
fn update_of_approval(alloc: Global, element: &ClosedElement) -> Result<UpdateBytes, NoMemory>
    requires { IsApproval element.now }
    ensures { IfOk result (λ update. update_value update
        ≡ update_of (move_of_element element.now zero_digest)) }
{
    match element {
        ClosedElement::Authorize { key, policy_ref } => update_of_approve(alloc, key, policy_ref),
        ClosedElement::AuthorizeNv { index } => update_of_approve_nv(alloc, index),
        ClosedElement::Assert(_) | ClosedElement::Or(_) => unreachable!(),
    }
}
