//! Laws of FAPI's spelling, over its definitions alone.

ghost use Rattle.tpol_export.specs.Differences.{NothingFollowsFirst};
ghost use Rattle.tpol_export.specs.Laws.{IsReadBack};

use tpol_write::canonical_values_stand;

/// What is exported reads back: `normal` of a policy in FAPI's spelling says that policy, without a note, with the
/// hierarchies that a path names by their handles.
pub fn exports_read_back()
    ensures { IsReadBack }
{
    canonical_values_stand();
}

/// Where a digest of FAPI only follows from another, one was told before it that does not: the first difference of a
/// policy is always what FAPI does otherwise itself.
pub fn nothing_follows_first()
    ensures { NothingFollowsFirst }
{}
