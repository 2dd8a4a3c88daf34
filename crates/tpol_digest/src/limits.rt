ghost use Rattle.tpol_base.specs.declared.digest.Digest32.{Digest32 as OneDigest};
ghost use Rattle.std.specs.Prelude.{◌≡◌, ◌<◌, ◌≤◌, ◌↔◌, Any, IfOk, IsErrOf, length, min};
ghost use Rattle.tpol_digest.specs.Limits.{AreWithinLimits};
ghost use Rattle.tpol_digest.specs.Memos.{Knows};
ghost use Rattle.tpol_digest.specs.Paths.{paths_of};
ghost use Rattle.tpol_digest.specs.Positions.{element_list_ways, element_ways};

use crate::counting::{extent_of_element, extent_of_elements};
use crate::extent::{MAX_MOVES, MAX_PATHS};
use crate::memo::Before;
use thiserror::Error;
use tpol_tree::{Approvals, ApprovedDoc, Closed, ClosedElement, ClosedElements};

/// How many approvals may lie inside one another.
pub const MAX_LEVELS: u8 = 4;

/// Why the ways through a policy are not walked.
#[derive(Clone, Copy, Debug, PartialEq, Eq, Error)]
pub enum PathLimit {
    /// There are more than 65,536 paths.
    #[error("there are more than 65,536 paths")]
    TooManyPaths,
    /// A path has more than 512 moves.
    #[error("a path has more than 512 moves")]
    TooLong,
}

/// The number of ways through a policy. It takes no memory.
///
/// `TooManyPaths` comes for more than 65,536 paths, and `TooLong` for at most 65,536 of which one has more
/// than 512 moves.
pub fn check_paths(policy: &Closed, approvals: &Approvals) -> Result<u32, PathLimit>
    ensures number { IfOk result (λ number. number ≡ length (paths_of policy.now approvals.now)) }
    ensures within { IfOk result (λ _. AreWithinLimits (paths_of policy.now approvals.now)) }
    ensures too_many { IsErrOf result PathLimit.TooManyPaths
        ↔ (65536 < length (paths_of policy.now approvals.now)) }
    ensures too_long { IsErrOf result PathLimit.TooLong
        ↔ ((length (paths_of policy.now approvals.now) ≤ 65536)
        × Any (λ path. 512 < length path.moves) (paths_of policy.now approvals.now)) }
{
    let extent = extent_of_elements(approvals.as_slice(), MAX_LEVELS, &policy.elements);
    if extent.paths > MAX_PATHS {
        return Err(PathLimit::TooManyPaths);
    }
    if extent.moves > MAX_MOVES {
        return Err(PathLimit::TooLong);
    }
    Ok(extent.paths as u32)
}

/// The number of ways through a policy, or 65,537 where there are more than 65,536. It takes no memory.
pub fn count_paths(policy: &Closed, approvals: &Approvals) -> u64
    ensures { result ≡ min (length (paths_of policy.now approvals.now)) 65537 }
{
    extent_of_elements(approvals.as_slice(), MAX_LEVELS, &policy.elements).paths
}

/// The number of ways through elements, or 65,537 where there are more than 65,536: of a policy's own, of those of
/// a branch or of an approved document, and so of what stands behind an element. Documents may be entered `levels`
/// deep. The digest before the elements does not matter. It takes no memory.
pub fn count_ways(approvals: &[ApprovedDoc], levels: u8, elements: &ClosedElements) -> u64
    ensures ways { (before : OneDigest)
        → result ≡ min (length (element_list_ways approvals.now levels elements.now before)) 65537 }
{
    extent_of_elements(approvals, levels, elements).paths
}

/// The same number, of elements whose digests are kept: the ways through an OR without approvals are kept too, and
/// not counted again.
pub fn count_ways_with_memo(
    approvals: &[ApprovedDoc],
    levels: u8,
    elements: &ClosedElements,
    before: &Before<'_>,
) -> u64
    requires knows { Knows before.now elements.now }
    ensures ways { (digest : OneDigest)
        → result ≡ min (length (element_list_ways approvals.now levels elements.now digest)) 65537 }
{
    before.extent(approvals, levels, elements).paths
}

/// The number of ways through one element, or 65,537 where there are more than 65,536. The number of ways through
/// elements is that of the first times that of the rest. It takes no memory.
pub fn count_element_ways(approvals: &[ApprovedDoc], levels: u8, element: &ClosedElement) -> u64
    ensures ways { (before : OneDigest)
        → result ≡ min (length (element_ways approvals.now levels element.now before)) 65537 }
{
    extent_of_element(approvals, levels, element).paths
}
