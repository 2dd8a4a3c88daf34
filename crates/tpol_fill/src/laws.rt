//! A law of filling, over its definitions alone.

ghost use Rattle.tpol_fill.specs.Laws.{FaultsIgnoreBoxes, FilledIgnoresBoxes};

/// What a policy is when it is filled, and which of its places have no value, is the same whichever memory
/// the policy lies in.
pub fn boxes_of_policies_are_ignored()
    ensures filled { FilledIgnoresBoxes }
    ensures faults { FaultsIgnoreBoxes }
{}
