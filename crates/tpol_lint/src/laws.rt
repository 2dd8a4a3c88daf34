//! A law of dead paths, over their definition alone.

ghost use Rattle.tpol_lint.specs.Opened.{DeadPathsNeverOpen};

/// No facts that agree match a path that is told as dead, and none open by it, where each OR of the policy and of its
/// approved documents has 2 to 8 branches, and the fields of all of these are within the bounds of the wire.
pub fn dead_paths_never_open()
    ensures { DeadPathsNeverOpen }
{}
