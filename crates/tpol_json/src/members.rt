//! The members of objects and the items of lists.

ghost use Rattle.std.specs.Prelude.{◌≡◌, ◌++◌, map, option_map, Some, IfOk, IfErr, OnOk};
ghost use Rattle.serde_json.specs.Find.{get};
ghost use Rattle.serde_json.specs.View.{view};
ghost use Rattle.tpol_json.specs.Reading.{Gives, cause};
ghost use Rattle.tpol_json.specs.Members.{IsMissing, is_among, unknown, without};
ghost use Rattle.tpol_json.specs.Places.{at_member};
ghost use Rattle.tpol_base.specs.Answers as answers;
ghost use Rattle.tpol_json.specs.Values.{items_of, items_in, is_within_limit};

use crate::fault::refuse;
use crate::{Fault, MemberFault, MemberKind, Notes, PlaceRef};
use serde_json::Value;
use std::alloc::Global;
use tpol_base::NoMemory;

/// The member of that name. None exactly where the value is no object, or one without that member.
pub fn member<'a>(value: &'a Value, name: &str) -> Option<&'a Value>
    ensures { option_map (λ v. view v.now) result ≡ get name.now (view value.now) }
{
    value.get(name)
}

/// The member of that name, which has to be there, and its place. `Missing` stands at that place where the value is
/// no object, or one without that member.
pub fn needed<'a>(
    alloc: Global,
    value: &'a Value,
    name: &'a str,
    place: &'a PlaceRef<'a>,
) -> Result<(&'a Value, PlaceRef<'a>), MemberFault>
    ensures there { IfOk result (λ found. get name.now (view value.now) ≡ Some (view found.0.now)) }
    ensures place { IfOk result (λ found. found.1 ≡ at_member place.now name.now) }
    ensures missing { IfErr result
        (λ fault. IsMissing fault (get name.now (view value.now)) (at_member place.now name.now)) }
{
    let found = present(alloc, value, name, place)?;
    Ok((found, place.member(name)))
}

// A member that has to be there.
fn present<'a>(
    alloc: Global,
    value: &'a Value,
    name: &str,
    place: &PlaceRef<'_>,
) -> Result<&'a Value, MemberFault>
    ensures there { IfOk result (λ found. get name.now (view value.now) ≡ Some (view found.now)) }
    ensures missing { IfErr result
        (λ fault. IsMissing fault (get name.now (view value.now)) (at_member place.now name.now)) }
{
    match member(value, name) {
        Some(found) => Ok(found),
        None => refuse(alloc, MemberKind::Missing, &place.member(name)),
    }
}

/// None of these members may stand in the object: the first of them that does is refused with the kind given, at its
/// own place.
pub fn without<K: Copy>(
    alloc: Global,
    value: &Value,
    names: &[&str],
    twice: K,
    place: &PlaceRef<'_>,
) -> Result<(), Fault<K>>
    ensures { Gives result (without twice (map (λ name. name.now) names.now)
        (view value.now) place.now) }
{
    for name in names {
        if member(value, name).is_some() {
            return refuse(alloc, twice, &(&*place).member(&**name));
        }
    }
    Ok(())
}

fn is_among(name: &str, names: &[&str]) -> bool
    ensures { result ≡ is_among name.now (map (λ name. name.now) names.now) }
{
    for known in names {
        if *known == name {
            return true;
        }
    }
    false
}

/// Notes the members of an object that are none of these, in ascending byte order of their names.
#[tactic(auto, using(crate::proofs::UnknownNames::view_names))]
pub fn note_unknown(
    alloc: Global,
    value: &Value,
    known: &[&str],
    place: &PlaceRef<'_>,
    notes: &mut Notes,
) -> Result<(), NoMemory>
    ensures { OnOk result (notes.new
        ≡ notes.old ++ unknown (map (λ name. name.now) known.now) (view value.now) place.now) }
{
    let Some(members) = value.as_object() else {
        return Ok(());
    };
    for name in members.keys() {
        if !is_among(name.as_str(), known) {
            notes.push((&*place).member(name.as_str()).to_place(alloc)?)?;
        }
    }
    Ok(())
}

/// The items of a list; a value of another kind is `WrongKind`.
pub fn items<'a>(
    alloc: Global,
    value: &'a Value,
    place: &PlaceRef<'_>,
) -> Result<&'a [Value], MemberFault>
    ensures { answers.Gives items_of cause result (items_in (view value.now) place.now) }
{
    match value {
        Value::Array(items) => Ok(items.as_slice()),
        _ => refuse(alloc, MemberKind::WrongKind, place),
    }
}

/// Whether a list that may have at most `limit` items may have one at this position, counted from 0. Where it may
/// not, `TooMany` stands at `place`.
pub fn check_limit(
    alloc: Global,
    index: usize,
    limit: usize,
    place: &PlaceRef<'_>,
) -> Result<(), MemberFault>
    ensures { Gives result (is_within_limit limit index place.now) }
{
    if index < limit {
        Ok(())
    } else {
        refuse(alloc, MemberKind::TooMany, place)
    }
}
