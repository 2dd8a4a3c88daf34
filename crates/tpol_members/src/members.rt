//! One of several members, and members that are unknown.

ghost use Rattle.std.specs.Prelude.{◌≡◌, ◌<◌, suc, drop, length, map, IfOk, OnOk};
ghost use Rattle.serde_json.specs.View.{view};
ghost use Rattle.tpol_base.specs.Answers as answers;
ghost use Rattle.tpol_json.specs.Reading.{Gives, cause};
ghost use Rattle.tpol_members.specs.Members.{first_of, noted, without};

use crate::{ElementFault, PolicyKind, Walk};
use serde_json::Value;
use std::alloc::Global;
use tpol_base::NoMemory;
use tpol_json::{PlaceRef, member, refuse, without};

/// The first of these members that is there: its position among them, what it says, and its name. Without
/// one the first is `Missing`.
pub fn first_of<'v, 'n>(
    alloc: Global,
    value: &'v Value,
    names: &[&'n str],
    place: &PlaceRef<'_>,
) -> Result<(usize, &'v Value, &'n str), ElementFault>
    requires { 0 < length names.now }
    ensures first { answers.Gives (λ found. (found.0, view found.1.now, found.2.now)) cause result
        (first_of (map (λ name. name.now) names.now) (view value.now) place.now) }
    ensures within { IfOk result (λ found. found.0 < length names.now) }
{
    for (position, name) in names.iter().enumerate() {
        if let Some(found) = member(value, name) {
            return Ok((position, found, name));
        }
    }
    refuse(alloc, PolicyKind::Missing, &place.member(names[0]))
}

/// The members after this one of several may not stand beside it: the first that does is `Twice`, at its own
/// place.
pub fn alone(
    alloc: Global,
    value: &Value,
    names: &[&str],
    position: usize,
    place: &PlaceRef<'_>,
) -> Result<(), ElementFault>
    requires { position < length names.now }
    ensures { Gives result (without (drop (suc position) (map (λ name. name.now) names.now))
        (view value.now) place.now) }
{
    without(
        alloc,
        value,
        &names[position + 1..],
        PolicyKind::Twice,
        place,
    )
}

/// Notes the members of an object that are none of these, in ascending byte order of their names.
#[tactic(auto, unfolding(crate::specs::Members::noted))]
pub fn note_unknown(
    alloc: Global,
    value: &Value,
    known: &[&str],
    place: &PlaceRef<'_>,
    walk: &mut Walk,
) -> Result<(), NoMemory>
    ensures { OnOk result (walk.new
        ≡ noted (map (λ name. name.now) known.now) (view value.now) place.now walk.old) }
{
    tpol_json::note_unknown(alloc, value, known, place, &mut walk.notes)
}
