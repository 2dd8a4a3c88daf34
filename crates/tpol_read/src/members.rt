//! The members of elements, branches and documents that hold no elements.

ghost use Rattle.serde_json.specs.View.{view};
ghost use Rattle.tpol_read.specs.Elements.{element_type_in, name_member, description_member};
ghost use Rattle.std.specs.Prelude.{[]};
ghost use Rattle.tpol_json.specs.Reading.{Gives};
ghost use Rattle.tpol_json.specs.Members.{optional};
ghost use Rattle.tpol_members.specs.Values.{text_in};

use serde_json::Value;
use std::alloc::Global;
use tpol_base::Text;
use tpol_elements::{ElementType, element_type};
use tpol_json::{PlaceRef, check_object, member, needed, text};
use tpol_members::ElementFault;

/// The type of an element, which is an object. `WrongKind` for what is no object and for a `type` that is no
/// text, `Missing` without one, `UnknownType` for a text that names no type.
#[tactic(auto, unfolding(crate::specs::Elements::element_type_in))]
pub fn type_of_element(
    alloc: Global,
    value: &Value,
    place: &PlaceRef<'_>,
) -> Result<ElementType, ElementFault>
    ensures { Gives result (element_type_in (view value.now) place.now) }
{
    check_object(alloc, value, place)?;
    let (word, place) = needed(alloc, value, "type", place)?;
    element_type(alloc, word, &place)
}

// A text, without it the empty one.
fn optional_text(
    alloc: Global,
    value: &Value,
    name: &str,
    place: &PlaceRef<'_>,
) -> Result<Text, ElementFault>
    ensures { Gives result (optional text_in [] name.now (view value.now) place.now) }
{
    match member(value, name) {
        Some(found) => Ok(text(alloc, found, &place.member(name))?),
        None => Ok(Text::new(alloc)),
    }
}

/// `description`, without it empty. `WrongKind` for what is no text.
#[tactic(auto, unfolding(crate::specs::Elements::description_member))]
pub fn description(alloc: Global, value: &Value, place: &PlaceRef<'_>) -> Result<Text, ElementFault>
    ensures { Gives result (description_member (view value.now) place.now) }
{
    optional_text(alloc, value, "description", place)
}

/// `name`, without it empty. `WrongKind` for what is no text.
#[tactic(auto, unfolding(crate::specs::Elements::name_member))]
pub fn name(alloc: Global, value: &Value, place: &PlaceRef<'_>) -> Result<Text, ElementFault>
    ensures { Gives result (name_member (view value.now) place.now) }
{
    optional_text(alloc, value, "name", place)
}
