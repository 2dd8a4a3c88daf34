//! Laws of the new spelling, over its definitions alone.

ghost use Rattle.tpol_adopt.specs.Laws.{IndexNumbers, IsConservative, IsIdempotent, LeavesOthers, LocalityNumbers, ObjectNumbers};

/// A document that says a policy says the same policy in its new spelling, with some of the notes and no others.
pub fn policies_stay()
    ensures { IsConservative }
{}

/// A document in its new spelling has no other.
pub fn spelling_lasts()
    ensures { IsIdempotent }
{}

/// A member that no row of its part names is the same afterwards, `scheme` aside, which alone may be a new member.
pub fn others_stay()
    ensures { LeavesOthers }
{}

/// FAPI's spelling of a number as an object of flags becomes that number: of the attributes of an index with each
/// type of the list, of the attributes of an object, and of localities.
pub fn flags_are_numbers()
    ensures index { IndexNumbers }
    ensures object { ObjectNumbers }
    ensures locality { LocalityNumbers }
{}
