//! How places and texts are written.

ghost use Rattle.std.specs.Prelude.{◌≡◌, ◌++◌, IfOk, OnOk};
ghost use Rattle.std.specs.List.{list_all};
ghost use Rattle.json.specs.Print.{quoted};
ghost use Rattle.tpol_json.specs.PlaceText.{is_plain, name_text, step_text, text_of_place};

use crate::{Place, PlaceStep};
use json::Writer;
use std::alloc::Global;
use std::mem;
use tpol_base::{NoMemory, Text};

/// The text of a place, as `policy[0].branches[1].policy[2].code`. Items count from 0. A member's
/// name outside `A-Z a-z 0-9 _ -`, and an empty one, is written as a JSON text. The document itself
/// is `$`.
pub fn place_text(alloc: Global, place: &Place) -> Result<Text, NoMemory>
    ensures { IfOk result (λ text. text ≡ text_of_place place.now) }
{
    if place.steps.is_empty() {
        return Text::from_str(alloc, "$");
    }
    let mut text = Text::new(alloc);
    let mut later = false;
    for step in place.steps.as_slice() {
        push_step(alloc, &mut text, step, later)?;
        later = true;
    }
    Ok(text)
}

fn push_step(alloc: Global, text: &mut Text, step: &PlaceStep, later: bool) -> Result<(), NoMemory>
    ensures { OnOk result (text.new ≡ text.old ++ step_text later step.now) }
{
    match step {
        PlaceStep::Member(name) => {
            if later {
                text.push_str(".")?;
            }
            push_name(alloc, text, name.as_str())
        }
        PlaceStep::Item(index) => text.push_str(format!(in alloc; "[{index}]")?.as_str()),
    }
}

fn push_name(alloc: Global, text: &mut Text, name: &str) -> Result<(), NoMemory>
    ensures { OnOk result (text.new ≡ text.old ++ name_text name.now) }
{
    if !name.is_empty() && is_plain(name) {
        text.push_str(name)
    } else {
        text.push_str(quoted(alloc, name)?.as_str())
    }
}

// Whether each character is one of `A-Z a-z 0-9 _ -`.
fn is_plain(name: &str) -> bool
    ensures { result ≡ list_all is_plain name.now }
{
    name.bytes()
        .all(|c| c.is_ascii_alphanumeric() || c == b'_' || c == b'-')
}

/// A text as a JSON text, with its quotation marks.
#[tactic(auto, unfolding(json::specs::Print::print_from))]
pub fn quoted(alloc: Global, text: &str) -> Result<Text, NoMemory>
    ensures { IfOk result (λ made. made ≡ quoted text.now) }
{
    let mut writer = Writer::new(Vec::new(alloc));
    writer.string(text)?;
    Ok(Text::from_string(String::from_utf8(writer.into_inner()).unwrap()))
}

/// Adds a text as a JSON text, with its quotation marks, at the end of these bytes. After `NoMemory` they are lost.
#[tactic(auto, unfolding(json::specs::Print::print_from))]
pub fn push_quoted(alloc: Global, bytes: &mut Vec<u8>, text: &str) -> Result<(), NoMemory>
    ensures { OnOk result (bytes.new.items ≡ bytes.old.items ++ quoted text.now) }
{
    let mut writer = Writer::new(mem::replace(bytes, Vec::new(alloc)));
    writer.string(text)?;
    *bytes = writer.into_inner();
    Ok(())
}
