//! A law of exports, over their definitions alone.

ghost use Rattle.tpol_bridge.specs.Laws.{KeepsPolicies};

/// A document of the profile that says a policy says the same one where it is read as an export, with some of its notes
/// and no others. So `adopt` prints of it what `canon` prints.
pub fn profile_stays()
    ensures { KeepsPolicies }
{}
