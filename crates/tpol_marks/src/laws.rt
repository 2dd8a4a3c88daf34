//! A law of marks, over their definition alone.

ghost use Rattle.tpol_marks.specs.Laws.{LastIsPolicys};

/// The last mark of a policy has the policy's digest, whatever it is filled with.
pub fn last_mark_is_the_policys()
    ensures { LastIsPolicys }
{}
