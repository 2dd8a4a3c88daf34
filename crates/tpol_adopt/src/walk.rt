//! Exported documents in the profile's spelling.

ghost use Rattle.std.specs.Prelude.{◌≡◌, ◌≤◌, ◌++◌, map, option_map, IfOk, OnOk};
ghost use Rattle.serde_json.specs.Data.{depth};
ghost use Rattle.serde_json.specs.View.{items_view, members_view, view};
ghost use Rattle.tpol_adopt.specs.Normal.{by_rule, list_of, normal, normal_as, normal_items, normal_members, with_member, with_scheme};

use crate::edits::edited;
use crate::rules::{Part, Rule, item_rule, member_rule, new_scheme};
use serde_json::{Map, Value, put};
use std::alloc::Global;
use tpol_base::NoMemory;

/// An exported document in the profile's spelling, by the rules of `specs/Rules.antt`. A value that no rule names
/// stays as it is, and nothing is refused.
///
/// Lists and objects nest no deeper than before, so the text of it is read back.
pub fn normal(alloc: Global, value: &Value) -> Result<Value, NoMemory>
    ensures exact { IfOk result (λ v. view v ≡ normal (view value.now)) }
    ensures nests { IfOk result (λ v. depth (view v) ≤ depth (view value.now)) }
{
    within(alloc, Part::Document, value)
}

// A value as this part of a document.
#[cycle(walk)]
#[tactic(auto, unfolding(crate::specs::Normal::normal_as))]
fn within(alloc: Global, part: Part, value: &Value) -> Result<Value, NoMemory>
    ensures { IfOk result (λ v. view v ≡ normal_as part (view value.now)) }
{
    match value {
        Value::Array(items) => Ok(Value::Array(items_within(alloc, part, items)?)),
        Value::Object(members) => {
            let kept = members_within(alloc, part, members, value)?;
            Ok(Value::Object(with_scheme(alloc, kept, new_scheme(part, value))?))
        }
        _ => Ok(value.clone()?),
    }
}

// The items of a list, each by its rule.
#[cycle(walk)]
#[tactic(auto, unfolding(crate::specs::Normal::normal_items))]
fn items_within(alloc: Global, part: Part, items: &Vec<Value>) -> Result<Vec<Value>, NoMemory>
    ensures { IfOk result (λ v. items_view v.items
        ≡ normal_items part (items_view items.now.items)) }
{
    let mut kept = Vec::new(alloc);
    for item in items {
        let item = match item_rule(alloc, part, item)? {
            Rule::Inner(inner) => Some(within(alloc, inner, item)?),
            rule => by_plain_rule(alloc, rule, item)?,
        };
        push_item(&mut kept, item)?;
    }
    Ok(kept)
}

// The members of an object, each by its rule.
#[cycle(walk)]
#[tactic(auto, unfolding(crate::specs::Normal::normal_members))]
fn members_within(
    alloc: Global,
    part: Part,
    members: &Map<String, Value>,
    whole: &Value,
) -> Result<Map<String, Value>, NoMemory>
    ensures { IfOk result (λ m. members_view m.entries
        ≡ normal_members part (view whole.now) (members_view members.now.entries)) }
{
    let mut kept = Map::new(alloc);
    for (name, member) in members.iter() {
        let member = match member_rule(part, whole, name.as_str()) {
            Rule::Inner(inner) => Some(within(alloc, inner, member)?),
            rule => by_plain_rule(alloc, rule, member)?,
        };
        put_member(alloc, &mut kept, name.as_str(), member)?;
    }
    Ok(kept)
}

// A value by a rule that does not go into it; None where it is left out.
fn by_plain_rule(alloc: Global, rule: Rule, value: &Value) -> Result<Option<Value>, NoMemory>
    ensures { IfOk result (λ v. option_map view v
        ≡ by_rule rule (λ _. view value.now) (view value.now)) }
{
    match rule {
        Rule::Same | Rule::Inner(_) => Ok(Some(value.clone()?)),
        Rule::LeftOut => Ok(None),
        Rule::Edited(edit) => Ok(Some(edited(alloc, edit, value)?)),
    }
}

// The items with one more, if there is one.
fn push_item(items: &mut Vec<Value>, item: Option<Value>) -> Result<(), NoMemory>
    ensures { OnOk result (map view items.new.items
        ≡ map view items.old.items ++ list_of (option_map view item)) }
{
    if let Some(item) = item {
        items.push(item)?;
    }
    Ok(())
}

// The members with one more, if there is one.
fn put_member(
    alloc: Global,
    members: &mut Map<String, Value>,
    name: &str,
    member: Option<Value>,
) -> Result<(), NoMemory>
    ensures { OnOk result (members_view members.new.entries
        ≡ with_member name.now (option_map view member) (members_view members.old.entries)) }
{
    if let Some(member) = member {
        put(members, alloc, name, member)?;
    }
    Ok(())
}

// The members with this scheme, if there is one.
fn with_scheme(
    alloc: Global,
    mut members: Map<String, Value>,
    scheme: Option<&str>,
) -> Result<Map<String, Value>, NoMemory>
    ensures { IfOk result (λ m. members_view m.entries
        ≡ with_scheme (option_map (λ text. text.now) scheme.entry) (members_view members.entries)) }
{
    if let Some(scheme) = scheme {
        put(
            &mut members,
            alloc,
            "scheme",
            Value::try_from_str(alloc, scheme)?,
        )?;
    }
    Ok(members)
}
