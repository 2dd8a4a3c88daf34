//! What each member of a policy's canonical value is called in FAPI's spelling, and what it becomes.

ghost use Rattle.std.specs.Prelude.{◌≡◌, [], ◌∷◌, OnOk, codes, option_and_then, option_map};
ghost use Rattle.serde_json.specs.Find.{get};
ghost use Rattle.serde_json.specs.View.{members_view, view};
ghost use Rattle.tpol_adopt.specs.Words.{says};
ghost use Rattle.tpol_export.specs.Rules.{item_rule, member_rule, more_entries, new_name, rule_in, rows_of, where_named, wrapper_of};
ghost use Rattle.tpol_write.specs.Objects.{with_members};

use crate::values::{Edit, Object, hierarchy_in};
use serde_json::{Value, put};
use std::alloc::Global;
use tpol_adopt::Flags;
use tpol_base::NoMemory;
use tpol_json::member;

/// What a value of a policy is, by the place where it stands.
#[derive(Clone, Copy)]
pub enum Part {
    /// The policy itself.
    Document,
    /// A list of elements.
    Elements,
    /// An element.
    Element,
    /// The branches of an OR.
    Branches,
    /// A branch of an OR.
    Branch,
    /// The public area of an index.
    IndexPublic,
    /// The public area of a key.
    KeyPublic,
    /// The authorizations of a policy.
    Approvals,
    /// An authorization.
    Approval,
}

/// What becomes of a member or of an item.
#[derive(Clone, Copy)]
pub enum Rule {
    /// It stays as it is.
    Same,
    /// Its own members and items go by their rules.
    Inner(Part),
    /// The same, within a wrapper.
    Wrapped(Part),
    /// It is spelled otherwise.
    Edited(Edit),
}

/// What becomes of a member of that name of an object.
#[tactic(auto, unfolding(crate::specs::Rules::member_rule))]
pub fn member_rule(part: Part, name: &str) -> Rule
    ensures { result ≡ member_rule part name.now }
{
    match part {
        Part::Document => document_rule(name),
        Part::Element => element_rule(name),
        Part::Branch => rule_where(name, "policy", Rule::Inner(Part::Elements)),
        Part::IndexPublic => {
            rule_where(
                name,
                "attributes",
                Rule::Edited(Edit::Number(Flags::OfIndex)),
            )
        }
        Part::KeyPublic => key_rule(name),
        Part::Approval => approval_rule(name),
        Part::Elements | Part::Branches | Part::Approvals => Rule::Same,
    }
}

// The rule where the name is this one.
fn rule_where(name: &str, row: &str, rule: Rule) -> Rule
    ensures { result ≡ rule_in ((row.now, rule) ∷ []) name.now }
{
    if name == row { rule } else { Rule::Same }
}

fn document_rule(name: &str) -> Rule
    ensures { result ≡ rule_in (rows_of Part.Document) name.now }
{
    match name {
        "policy" => Rule::Inner(Part::Elements),
        "policyAuthorizations" => Rule::Inner(Part::Approvals),
        _ => Rule::Same,
    }
}

fn element_rule(name: &str) -> Rule
    ensures { result ≡ rule_in (rows_of Part.Element) name.now }
{
    match name {
        "branches" => Rule::Inner(Part::Branches),
        "nvPublic" => Rule::Wrapped(Part::IndexPublic),
        "keyPublic" => Rule::Inner(Part::KeyPublic),
        "newParentPublic" => Rule::Wrapped(Part::KeyPublic),
        "includeObject" | "writtenSet" => Rule::Edited(Edit::Truth),
        "locality" => Rule::Edited(Edit::Number(Flags::OfLocality)),
        "objectPath" => Rule::Edited(Edit::Hierarchy),
        _ => Rule::Same,
    }
}

fn key_rule(name: &str) -> Rule
    ensures { result ≡ rule_in (rows_of Part.KeyPublic) name.now }
{
    match name {
        "objectAttributes" => Rule::Edited(Edit::Number(Flags::OfObject)),
        "scheme" => Rule::Edited(Edit::Scheme),
        _ => Rule::Same,
    }
}

fn approval_rule(name: &str) -> Rule
    ensures { result ≡ rule_in (rows_of Part.Approval) name.now }
{
    match name {
        "keyPublic" => Rule::Inner(Part::KeyPublic),
        "signature" => Rule::Edited(Edit::Signature),
        _ => Rule::Same,
    }
}

/// What becomes of an item of a list.
#[tactic(auto, unfolding(crate::specs::Rules::item_rule))]
pub fn item_rule(part: Part) -> Rule
    ensures { result ≡ item_rule part }
{
    match part {
        Part::Elements => Rule::Inner(Part::Element),
        Part::Branches => Rule::Inner(Part::Branch),
        Part::Approvals => Rule::Inner(Part::Approval),
        _ => Rule::Same,
    }
}

/// What a member of that name of an object is called.
#[tactic(auto, unfolding(crate::specs::Rules::new_name))]
pub fn new_name<'a>(part: Part, whole: &Value, name: &'a str) -> &'a str
    ensures { result.now ≡ new_name part (view whole.now) name.now }
{
    match part {
        Part::Element => entity_name(whole, name),
        Part::KeyPublic => where_named("scheme", "parameters", name),
        Part::Approval => where_named("keyPublic", "key", name),
        _ => name,
    }
}

fn where_named<'a>(old: &str, new: &'static str, name: &'a str) -> &'a str
    ensures { result.now ≡ where_named old.now new.now name.now }
{
    if name == old { new } else { name }
}

// The path of a hierarchy is no path for FAPI.
#[tactic(auto, unfolding(crate::specs::Rules::new_name))]
fn entity_name<'a>(whole: &Value, name: &'a str) -> &'a str
    ensures { result.now ≡ new_name Part.Element (view whole.now) name.now }
{
    match member(whole, "objectPath").and_then(hierarchy_in) {
        Some(_) => where_named("objectPath", "objectName", name),
        None => name,
    }
}

/// What a public area stands in.
pub fn wrapper_of(part: Part) -> &'static str
    ensures { result.now ≡ wrapper_of part }
{
    match part {
        Part::IndexPublic => "nvPublic",
        _ => "publicArea",
    }
}

/// Sets what FAPI wants besides: in a POLICYNV, the index's handle beside its public area.
#[tactic(auto, unfolding(crate::specs::Rules::more_entries))]
pub fn put_more(
    alloc: Global,
    object: &mut Object,
    part: Part,
    whole: &Value,
) -> Result<(), NoMemory>
    ensures { OnOk result (members_view object.new.entries
        ≡ with_members (more_entries part (view whole.now)) (members_view object.old.entries)) }
{
    match part {
        Part::Element => put_index(alloc, object, whole),
        _ => Ok(()),
    }
}

#[tactic(auto, unfolding(crate::specs::Rules::more_entries))]
fn put_index(alloc: Global, object: &mut Object, whole: &Value) -> Result<(), NoMemory>
    ensures { OnOk result (members_view object.new.entries
        ≡ with_members (more_entries Part.Element (view whole.now))
        (members_view object.old.entries)) }
{
    if !says(whole, "type", "POLICYNV") {
        return Ok(());
    }
    match index_of(whole) {
        Some(index) => Ok(put(object, alloc, "nvIndex", index.clone()?)?),
        None => Ok(()),
    }
}

// Whether the object has a member of that name that is this text.
fn says(value: &Value, name: &str, word: &str) -> bool
    ensures { result ≡ says name.now word.now (view value.now) }
{
    match member(value, name).and_then(Value::as_str) {
        Some(text) => text == word,
        None => false,
    }
}

// The handle in an element's public area of an index.
fn index_of(whole: &Value) -> Option<&Value>
    ensures { option_map (λ value. view value.now) result
        ≡ option_and_then (get (codes "nvIndex")) (get (codes "nvPublic") (view whole.now)) }
{
    member(member(whole, "nvPublic")?, "nvIndex")
}
