// The digests of the branches of an OR that comes first, and the digest behind it.

ghost use Rattle.std.specs.Prelude.{◌≡◌, ◌≤◌};
ghost use Rattle.tpol_choose.specs.OrDigests.{digests_of};
ghost use Rattle.tpol_digest.specs.Digest as spec;
ghost use Rattle.tpol_digest.specs.Memos.{Knows, KnowsFirst};
ghost use Rattle.tpol_tree.specs.Closed.{branch_count};
ghost use Rattle.tpol_tree.specs.declared.closed.ClosedElement.TheVariants.{Or as OneOr};

use crate::branch_digests::BranchDigests;
use tpol_base::Digest32;
use tpol_digest::{Before, or_digest};
use tpol_tree::{ClosedBranches, ClosedElement, ClosedElements};

// The digests of the branches: those that are kept beside the policy, or else made.
#[derive(Drop)]
pub enum OrDigests<'a> {
    Kept(&'a [Digest32]),
    Made(BranchDigests),
}

impl<'a> OrDigests<'a> {
    pub fn of(
        before: &Before<'a>,
        branches: &ClosedBranches,
        rest: &ClosedElements,
    ) -> OrDigests<'a>
        requires few { branch_count branches.now ≤ 8 }
        requires knows { KnowsFirst before.now (OneOr branches.now) rest.now }
        ensures { digests_of result ≡ spec.branch_digests branches.now before.now.digest }
    {
        match before.kept_digests(branches, rest) {
            Some(digests) => OrDigests::Kept(digests),
            None => OrDigests::Made(BranchDigests::of(branches, before.digest)),
        }
    }

    // The digests in order.
    pub fn as_slice(&self) -> &[Digest32]
        ensures { result.now ≡ digests_of self.now }
    {
        match self {
            OrDigests::Kept(digests) => digests,
            OrDigests::Made(digests) => digests.as_slice(),
        }
    }

    // The digest behind the OR, before the rest of its list.
    pub fn behind<'b>(
        &self,
        before: &Before<'b>,
        element: &ClosedElement,
        rest: &ClosedElements,
    ) -> Before<'b>
        requires knows { KnowsFirst before.now element.now rest.now }
        requires leads { spec.or_digest (digests_of self.now)
            ≡ spec.digest_at_element element.now before.now.digest }
        ensures digest { result.digest ≡ spec.or_digest (digests_of self.now) }
        ensures knows { Knows result rest.now }
    {
        match before.memo {
            Some(_) => before.behind(element, rest),
            None => Before::without_memo(or_digest(self.as_slice())),
        }
    }
}
