// The first path that can be gone.

ghost use Rattle.std.specs.List.{AllZip};
ghost use Rattle.std.specs.Prelude.{◌≡◌, IfSome};
ghost use Rattle.tpol_choose.specs.Blocks.{chosen_path};
ghost use Rattle.tpol_digest.specs.Digest.{zero_digest as no_digest};
ghost use Rattle.tpol_digest.specs.Limits.{AreWithinLimits};
ghost use Rattle.tpol_digest.specs.Memos.{IsMemo, Knows};
ghost use Rattle.tpol_digest.specs.Paths.{paths_of};
ghost use Rattle.tpol_choose.specs.Few.{HaveFewBranches};
ghost use Rattle.tpol_name.specs.Setups.{IsSight};

use crate::client::Client;
use crate::searching::{Search, search_policy};
use crate::walk::Walk;
use tpol_digest::{Before, MAX_LEVELS, Memo, zero_digest};
use tpol_goal::{Goal, Grants};
use tpol_name::Sight;
use tpol_tree::{Approvals, Closed};

/// The position, from 1, of the first path of a policy that the client can go (see `can` and
/// `tpol_digest::path_at`); `None` exactly where it can go none. No list of the paths is made, and no memory
/// is taken.
pub fn choose<'a>(
    policy: &Closed,
    approvals: &'a Approvals,
    sight: &'a Sight,
    grants: &'a Grants,
    goal: &'a Goal,
    locality: u8,
) -> Option<u32>
    requires few { HaveFewBranches policy.now approvals.now }
    requires within { AreWithinLimits (paths_of policy.now approvals.now) }
    requires sight { IsSight sight.now }
    ensures chosen { result ≡ chosen_path
        (paths_of policy.now approvals.now) sight.now grants.now goal.now locality }
{
    let before = Before::without_memo(zero_digest());
    choose_from(
        policy, before, approvals, None, sight, grants, goal, locality,
    )
}

/// The same as `choose`, where the digests of the policy are kept in `memo`, and those of each approved document in
/// `memos` (see `tpol_digest::memo_of`).
pub fn choose_with_memo<'a>(
    policy: &Closed,
    memo: &Memo,
    approvals: &'a Approvals,
    memos: &'a [Memo],
    sight: &'a Sight,
    grants: &'a Grants,
    goal: &'a Goal,
    locality: u8,
) -> Option<u32>
    requires memo { IsMemo policy.now.elements no_digest memo.now }
    requires memos { AllZip (λ document memo. IsMemo document.closed.elements no_digest memo)
        approvals.now memos.now }
    requires few { HaveFewBranches policy.now approvals.now }
    requires within { AreWithinLimits (paths_of policy.now approvals.now) }
    requires sight { IsSight sight.now }
    ensures chosen { result ≡ chosen_path
        (paths_of policy.now approvals.now) sight.now grants.now goal.now locality }
{
    let before = Before::start(memo);
    let memos = Some(memos);
    choose_from(
        policy, before, approvals, memos, sight, grants, goal, locality,
    )
}

// The same, where `before` is the digest before the policy, with the digests of the approved documents, where they
// are kept.
fn choose_from<'a>(
    policy: &Closed,
    before: Before<'_>,
    approvals: &'a Approvals,
    memos: Option<&'a [Memo]>,
    sight: &'a Sight,
    grants: &'a Grants,
    goal: &'a Goal,
    locality: u8,
) -> Option<u32>
    requires start { before.digest ≡ no_digest }
    requires knows { Knows before policy.now.elements }
    requires memos { IfSome memos (λ memos.
        AllZip (λ document memo. IsMemo document.closed.elements no_digest memo)
        approvals.now memos.now) }
    requires few { HaveFewBranches policy.now approvals.now }
    requires within { AreWithinLimits (paths_of policy.now approvals.now) }
    requires sight { IsSight sight.now }
    ensures { result ≡ chosen_path
        (paths_of policy.now approvals.now) sight.now grants.now goal.now locality }
{
    if sight.free_sessions == 0 {
        return None;
    }
    let client = Client::new(sight, grants, goal, locality);
    let walk = Walk {
        client: &client,
        approvals: approvals.as_slice(),
        memos,
        levels: MAX_LEVELS,
    };
    match search_policy(&walk, policy, before) {
        Search::Found(index) => Some(index as u32 + 1),
        Search::Passed(_) => None,
    }
}
