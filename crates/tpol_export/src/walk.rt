//! A policy's canonical value in FAPI's spelling.

ghost use Rattle.std.specs.Prelude.{◌≡◌, IfOk, OnOk};
ghost use Rattle.serde_json.specs.Data.{no_members};
ghost use Rattle.serde_json.specs.View.{items_view, members_view, view};
ghost use Rattle.tpol_export.specs.Spelling.{by_rule, spelled, spelled_as, spelled_items, spelled_members, wrapped};

use crate::rules::{Part, Rule, item_rule, member_rule, new_name, put_more, wrapper_of};
use crate::values::{Object, edited};
use serde_json::{Map, Value, put};
use std::alloc::Global;
use tpol_base::NoMemory;

/// The canonical value of a policy in FAPI's spelling, by the rules of `specs/Rules.antt`. A value that no rule names stays as
/// it is, and nothing is refused.
pub fn spelled(alloc: Global, value: &Value) -> Result<Value, NoMemory>
    ensures exact { IfOk result (λ v. view v ≡ spelled (view value.now)) }
{
    within(alloc, Part::Document, value)
}

// A value as this part of a policy.
#[cycle(walk)]
#[tactic(auto, unfolding(crate::specs::Spelling::spelled_as))]
fn within(alloc: Global, part: Part, value: &Value) -> Result<Value, NoMemory>
    ensures { IfOk result (λ v. view v ≡ spelled_as part (view value.now)) }
{
    match value {
        Value::Array(items) => Ok(Value::Array(items_within(alloc, part, items)?)),
        Value::Object(members) => {
            let mut object = members_within(alloc, part, members, value)?;
            put_more(alloc, &mut object, part, value)?;
            Ok(Value::Object(object))
        }
        _ => Ok(value.clone()?),
    }
}

// The items of a list, each by its rule.
#[cycle(walk)]
#[tactic(auto, unfolding(crate::specs::Spelling::spelled_items))]
fn items_within(alloc: Global, part: Part, items: &Vec<Value>) -> Result<Vec<Value>, NoMemory>
    ensures { IfOk result (λ v. items_view v.items
        ≡ spelled_items part (items_view items.now.items)) }
{
    let mut kept = Vec::new(alloc);
    for item in items {
        kept.push(by_rule(alloc, item_rule(part), item)?)?;
    }
    Ok(kept)
}

// The members of an object, each by its rule.
#[cycle(walk)]
#[tactic(auto, unfolding(crate::specs::Spelling::spelled_members))]
fn members_within(
    alloc: Global,
    part: Part,
    members: &Map<String, Value>,
    whole: &Value,
) -> Result<Object, NoMemory>
    ensures { IfOk result (λ m. members_view m.entries
        ≡ spelled_members part (view whole.now) (members_view members.now.entries) no_members) }
{
    let mut kept = Map::new(alloc);
    for (name, member) in members.iter() {
        let rule = member_rule(part, name.as_str());
        let member = by_rule(alloc, rule, member)?;
        put(
            &mut kept,
            alloc,
            new_name(part, whole, name.as_str()),
            member,
        )?;
    }
    Ok(kept)
}

// A value by its rule.
#[cycle(walk)]
fn by_rule(alloc: Global, rule: Rule, value: &Value) -> Result<Value, NoMemory>
    ensures { IfOk result (λ v. view v
        ≡ by_rule rule (λ inner. spelled_as inner (view value.now)) (view value.now)) }
{
    match rule {
        Rule::Same => Ok(value.clone()?),
        Rule::Inner(part) => within(alloc, part, value),
        Rule::Wrapped(part) => {
            let inner = within(alloc, part, value)?;
            wrapped(alloc, part, inner)
        }
        Rule::Edited(edit) => edited(alloc, edit, value),
    }
}

// A public area within its wrapper.
fn wrapped(alloc: Global, part: Part, inner: Value) -> Result<Value, NoMemory>
    ensures { IfOk result (λ v. view v ≡ wrapped part (view inner)) }
{
    let mut object = Object::new(alloc);
    put(&mut object, alloc, wrapper_of(part), inner)?;
    put(&mut object, alloc, "size", Value::from(0u32))?;
    Ok(Value::Object(object))
}
