//! Laws of reading elements, over its definitions alone.

ghost use Rattle.tpol_elements.specs.Publics.{ThroughLooksUp};
ghost use Rattle.tpol_tree.specs.declared.wishes.NvPublicText.{NvPublicText};
ghost use Rattle.tpol_tree.specs.declared.wishes.ObjectPublicText.{ObjectPublicText};

/// Public areas are read through their wrappers by a look-up of the wrapper's member: without it the value is
/// read as it is, and else what the member says, with the value's other members noted after that.
pub fn wrappers_are_looked_up()
    ensures key { ThroughLooksUp ObjectPublicText }
    ensures index { ThroughLooksUp NvPublicText }
{}
