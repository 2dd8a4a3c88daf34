//! The digests of a policy, kept beside it, so that none is computed twice, and how many ways its ORs have.

ghost use Rattle.std.specs.Prelude.{◌≡◌, ◌++◌, ◌∷◌, [], IfOk, IfSome, Ok, OnOk};
ghost use Rattle.tpol_digest.specs.Digest as spec;
ghost use Rattle.tpol_digest.specs.Extent.{IsCapped, document_extent, extent_at, extent_at_element};
ghost use Rattle.tpol_digest.specs.Memos.{AreMemos, IsMemo, IsMemoOf, Knows, KnowsBranch, KnowsBranches, KnowsFirst};
ghost use Rattle.tpol_tree.specs.declared.closed.ClosedElement.TheVariants.{Or as OneOr};
ghost use Rattle.tpol_tree.specs.declared.closed.ClosedElements.{ClosedElements as AnyElements};

use crate::counting::{extent_of_element, extent_of_elements};
use crate::extent::Extent;
use crate::own_extent::own_extent_of_branches;
use crate::policy::{digest_after_element, or_digest, zero_digest};
use std::alloc::Global;
use tpol_base::{Digest32, Digests, NoMemory};
use tpol_tree::{ApprovedDoc, Closed, ClosedBranches, ClosedElement, ClosedElements};

/// The digests of a list of elements, in order: the digest after each element, and at an OR those of its
/// branches, as PolicyOR takes them, with the digests within each branch, and the extent of its ways where no
/// approval is asked for within it.
#[derive(Drop)]
#[cycle(memo)]
pub enum Memo {
    End,
    Plain {
        after: Digest32,
        rest: Box<Memo>,
    },
    Or {
        after: Digest32,
        digests: Digests,
        extent: Option<Extent>,
        branches: Box<BranchMemos>,
        rest: Box<Memo>,
    },
}

/// The digests within the branches of an OR, in order.
#[derive(Drop)]
#[cycle(memo)]
pub enum BranchMemos {
    End,
    More(Box<Memo>, Box<BranchMemos>),
}

/// The digests of a policy, each computed once. It fails only where memory ran out.
pub fn memo_of(alloc: Global, policy: &Closed) -> Result<Memo, NoMemory>
    ensures { IfOk result (IsMemo policy.now.elements spec.zero_digest) }
{
    memo_of_elements(alloc, &policy.elements, zero_digest())
}

// Those of elements, where `before` is the digest before them.
#[cycle(memo_of)]
pub fn memo_of_elements(
    alloc: Global,
    elements: &ClosedElements,
    before: Digest32,
) -> Result<Memo, NoMemory>
    ensures { IfOk result (IsMemo elements.now before) }
{
    match elements {
        ClosedElements::End => Ok(Memo::End),
        ClosedElements::More(element, rest) => match &**element {
            ClosedElement::Or(branches) => {
                let mut digests = Digests::new(alloc);
                let extent = own_extent_of_branches(branches);
                let branches = memos_of_branches(alloc, &mut digests, branches, before)?;
                let after = or_digest(digests.as_slice());
                let rest = boxed(alloc, memo_of_elements(alloc, rest, after))?;
                Ok(Memo::Or {
                    after,
                    digests,
                    extent,
                    branches,
                    rest,
                })
            }
            _ => {
                let after = digest_after_element(element, before);
                let rest = boxed(alloc, memo_of_elements(alloc, rest, after))?;
                Ok(Memo::Plain { after, rest })
            }
        },
    }
}

// Those within branches; adds the digests of the branches.
#[cycle(memo_of)]
fn memos_of_branches(
    alloc: Global,
    digests: &mut Digests,
    branches: &ClosedBranches,
    before: Digest32,
) -> Result<Box<BranchMemos>, NoMemory>
    ensures digests { OnOk result
        (digests.new ≡ digests.old ++ spec.branch_digests branches.now before) }
    ensures memos { IfOk result (λ memos. AreMemos branches.now before memos.value) }
{
    match branches {
        ClosedBranches::End => boxed_branches(alloc, BranchMemos::End),
        ClosedBranches::More(branch, rest) => {
            let first = memo_of_elements(alloc, &branch.policy.elements, before)?;
            let first = branch_memo(alloc, digests, first, before)?;
            let others = memos_of_branches(alloc, digests, rest, before)?;
            boxed_branches(alloc, BranchMemos::More(first, others))
        }
    }
}

// The digests of a branch in a box; adds the last of them to the digests of the branches.
fn branch_memo(
    alloc: Global,
    digests: &mut Digests,
    branch: Memo,
    before: Digest32,
) -> Result<Box<Memo>, NoMemory>
    ensures digest { (elements : AnyElements) → IsMemo elements before branch
        → OnOk result (digests.new ≡ digests.old ++ spec.digest_at elements before ∷ []) }
    ensures memo { IfOk result (λ boxed. boxed.value ≡ branch) }
{
    digests.push(branch.last(before))?;
    Ok(Box::new(alloc, branch)?)
}

// The digests of elements in a box, unless memory ran out before.
fn boxed(alloc: Global, memo: Result<Memo, NoMemory>) -> Result<Box<Memo>, NoMemory>
    ensures { IfOk result (λ boxed. memo ≡ Ok boxed.value) }
{
    Ok(Box::new(alloc, memo?)?)
}

// The digests within branches in a box.
fn boxed_branches(alloc: Global, memos: BranchMemos) -> Result<Box<BranchMemos>, NoMemory>
    ensures { IfOk result (λ boxed. boxed.value ≡ memos) }
{
    Ok(Box::new(alloc, memos)?)
}

impl Memo {
    /// The digest after all elements, where `before` is the digest before them.
    pub fn last(&self, before: Digest32) -> Digest32
        ensures { (elements : AnyElements) → IsMemo elements before self.now
            → result ≡ spec.digest_at elements before }
    {
        match self {
            Memo::End => before,
            Memo::Plain { after, rest } => rest.last(*after),
            Memo::Or { after, rest, .. } => rest.last(*after),
        }
    }
}

/// The digest before elements of a policy, and the digests among them, where they are kept.
#[derive(Clone, Copy)]
pub struct Before<'a> {
    pub digest: Digest32,
    pub memo: Option<&'a Memo>,
}

/// The digest before the branches of an OR, and the digests within them, where they are kept.
#[derive(Clone, Copy)]
pub struct BeforeBranches<'a> {
    pub digest: Digest32,
    pub memos: Option<&'a BranchMemos>,
}

impl<'a> Before<'a> {
    /// The digest before elements of which nothing is kept.
    pub fn without_memo(digest: Digest32) -> Before<'a>
        ensures digest { result.digest ≡ digest }
        ensures knows { (elements : AnyElements) → Knows result elements }
    {
        Before { digest, memo: None }
    }

    /// The digest before a policy whose digests are kept.
    pub fn start(memo: &'a Memo) -> Before<'a>
        ensures digest { result.digest ≡ spec.zero_digest }
        ensures knows { (elements : AnyElements) → IsMemo elements spec.zero_digest memo.now
            → Knows result elements }
    {
        Before {
            digest: zero_digest(),
            memo: Some(memo),
        }
    }

    /// The digest behind the element that comes first, before the rest of its list.
    pub fn behind(&self, element: &ClosedElement, rest: &ClosedElements) -> Before<'a>
        requires knows { KnowsFirst self.now element.now rest.now }
        ensures digest { result.digest ≡ spec.digest_at_element element.now self.now.digest }
        ensures knows { Knows result rest.now }
    {
        match self.memo {
            Some(Memo::Plain { after, rest }) | Some(Memo::Or { after, rest, .. }) => Before {
                digest: *after,
                memo: Some(rest),
            },
            _ => Before {
                digest: digest_after_element(element, self.digest),
                memo: None,
            },
        }
    }

    /// The extent of the paths of elements. No OR is counted whose extent is kept.
    pub(crate) fn extent(
        &self,
        approvals: &[ApprovedDoc],
        levels: u8,
        elements: &ClosedElements,
    ) -> Extent
        requires knows { Knows self.now elements.now }
        ensures { IsCapped result
            (extent_at (document_extent approvals.now levels) approvals.now elements.now) }
    {
        if self.memo.is_none() {
            return extent_of_elements(approvals, levels, elements);
        }
        match elements {
            ClosedElements::End => Extent::one_path(0),
            ClosedElements::More(element, rest) => {
                let first = self.first_extent(approvals, levels, element, rest);
                first.then(self.behind(element, rest).extent(approvals, levels, rest))
            }
        }
    }

    /// The extent of the paths of the element that comes first.
    pub(crate) fn first_extent(
        &self,
        approvals: &[ApprovedDoc],
        levels: u8,
        element: &ClosedElement,
        rest: &ClosedElements,
    ) -> Extent
        requires knows { KnowsFirst self.now element.now rest.now }
        ensures { IsCapped result (extent_at_element
            (document_extent approvals.now levels) approvals.now element.now) }
    {
        match self.memo {
            Some(
                Memo::Or {
                    extent: Some(extent),
                    ..
                },
            ) => *extent,
            _ => extent_of_element(approvals, levels, element),
        }
    }

    /// The digests of the branches of an OR that comes first, where they are kept.
    pub fn kept_digests(
        &self,
        branches: &ClosedBranches,
        rest: &ClosedElements,
    ) -> Option<&'a [Digest32]>
        requires knows { KnowsFirst self.now (OneOr branches.now) rest.now }
        ensures { IfSome result
            (λ digests. digests.now ≡ spec.branch_digests branches.now self.now.digest) }
    {
        match self.memo {
            Some(Memo::Or { digests, .. }) => Some(digests.as_slice()),
            _ => None,
        }
    }

    /// The digest before the branches of an OR that comes first.
    pub fn within(&self, branches: &ClosedBranches, rest: &ClosedElements) -> BeforeBranches<'a>
        requires knows { KnowsFirst self.now (OneOr branches.now) rest.now }
        ensures digest { result.digest ≡ self.now.digest }
        ensures knows { KnowsBranches result branches.now }
    {
        let memos = match self.memo {
            Some(Memo::Or { branches, .. }) => Some(&**branches),
            _ => None,
        };
        BeforeBranches {
            digest: self.digest,
            memos,
        }
    }
}

impl<'a> BeforeBranches<'a> {
    /// The digest before the elements of the branch that comes first.
    pub fn first(&self, elements: &ClosedElements, rest: &ClosedBranches) -> Before<'a>
        requires knows { KnowsBranch self.now elements.now rest.now }
        ensures digest { result.digest ≡ self.now.digest }
        ensures knows { Knows result elements.now }
    {
        let memo = match self.memos {
            Some(BranchMemos::More(memo, _)) => Some(&**memo),
            _ => None,
        };
        Before {
            digest: self.digest,
            memo,
        }
    }

    /// The same before the branches behind it.
    pub fn behind(&self, elements: &ClosedElements, rest: &ClosedBranches) -> BeforeBranches<'a>
        requires knows { KnowsBranch self.now elements.now rest.now }
        ensures digest { result.digest ≡ self.now.digest }
        ensures knows { KnowsBranches result rest.now }
    {
        let memos = match self.memos {
            Some(BranchMemos::More(_, others)) => Some(&**others),
            _ => None,
        };
        BeforeBranches {
            digest: self.digest,
            memos,
        }
    }
}
