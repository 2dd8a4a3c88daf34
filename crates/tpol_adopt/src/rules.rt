//! What becomes of each member of an exported document, and of each item of its lists.

ghost use Rattle.std.specs.Prelude.{◌≡◌, [], ◌∷◌, Bool, true, IfOk, Some, option_and_then, option_map};
ghost use Rattle.serde_json.specs.Data.{null};
ghost use Rattle.serde_json.specs.Find.{as_str, get};
ghost use Rattle.serde_json.specs.View.{view};
ghost use Rattle.tpol_elements.specs.declared.types.ElementType.TheVariants.{Leaf};
ghost use Rattle.tpol_elements.specs.declared.types.LeafType.TheVariants as leaf;
ghost use Rattle.tpol_adopt.specs.Rules.{element_rows, has_bytes, has_object, is_empty, is_parent_named, item_rule, key_rows, left_out_where, member_rule, new_scheme, parent_rule, rows_of, rule_in, run_rows, type_of, wrapper_rows};

use crate::asymmetric::is_asymmetric;
use crate::edits::Edit;
use crate::flags::Flags;
use crate::schemes::inner_scheme;
use crate::words::{has, says};
use serde_json::Value;
use std::alloc::Global;
use tpol_base::NoMemory;
use tpol_elements::{ElementType, LeafType, element_type};
use tpol_json::{Place, PlaceRef, member};
use tpol_members::ElementFault;

/// What a value of a document is, by the place where it stands.
#[derive(Clone, Copy)]
pub enum Part {
    /// The document itself.
    Document,
    /// A list of elements.
    Elements,
    /// An element of this type; None where it names none.
    Element(Option<ElementType>),
    /// The branches of an OR.
    Branches,
    /// A branch of an OR.
    Branch,
    /// The public area of an index, within wrappers or not.
    IndexPublic,
    /// The public area of a key, within wrappers or not.
    KeyPublic,
    /// The authorizations of a document.
    Approvals,
    /// An authorization.
    Approval,
}

/// What becomes of a member or of an item.
#[derive(Clone, Copy)]
pub enum Rule {
    /// It stays as it is.
    Same,
    /// It is left out.
    LeftOut,
    /// Its own members and items go by their rules.
    Inner(Part),
    /// It is spelled otherwise.
    Edited(Edit),
}

fn left_out_where(is_left_out: bool) -> Rule
    ensures { result ≡ left_out_where is_left_out }
{
    if is_left_out {
        Rule::LeftOut
    } else {
        Rule::Same
    }
}

// Whether the member is the empty text.
fn is_empty(value: &Value, name: &str) -> bool
    ensures { result ≡ is_empty name.now (view value.now) }
{
    says(value, name, "")
}

// Whether the member is an object.
fn has_object(value: &Value, name: &str) -> bool
    ensures { result ≡ has_object name.now (view value.now) }
{
    match member(value, name) {
        Some(found) => found.is_object(),
        None => false,
    }
}

// Whether FAPI goes by a parent's Name, and not by the public area beside it.
fn is_parent_named(value: &Value) -> bool
    ensures { result ≡ is_parent_named (view value.now) }
{
    !has(value, "newParentPath") && has_bytes(value, "newParentName")
}

// Whether the member is a text that says any bytes: it is not empty, nor `0x` alone.
fn has_bytes(value: &Value, name: &str) -> bool
    ensures { result ≡ has_bytes (option_and_then as_str (get name.now (view value.now))) }
{
    match member(value, name).and_then(Value::as_str) {
        Some(text) => text.strip_prefix("0x").unwrap_or(text) != "",
        None => false,
    }
}

/// The type of an element, if it names one.
#[tactic(auto, unfolding(crate::specs::Rules::type_of))]
fn type_of(alloc: Global, value: &Value) -> Result<Option<ElementType>, NoMemory>
    ensures { IfOk result (λ type. type ≡ type_of (view value.now)) }
{
    let Some(word) = member(value, "type") else {
        return Ok(None);
    };
    let root = Place::root(alloc);
    match element_type(alloc, word, &PlaceRef::at(&root)) {
        Ok(found) => Ok(Some(found)),
        Err(ElementFault::Bad { .. }) => Ok(None),
        Err(ElementFault::NoMemory) => Err(NoMemory),
    }
}

// A member of a SECRET.
fn secret_rule(whole: &Value, name: &str) -> Rule
    ensures { result ≡ rule_in (run_rows (view whole.now) []) name.now }
{
    match name {
        "cpHashA" => left_out_where(is_empty(whole, "cpHashA")),
        "nonceTPM" => left_out_where(is_empty(whole, "nonceTPM")),
        _ => Rule::Same,
    }
}

// A member of a SIGNED.
fn signed_rule(whole: &Value, name: &str) -> Rule
    ensures { result ≡ rule_in (run_rows (view whole.now) (key_rows (view whole.now))) name.now }
{
    match name {
        "cpHashA" => left_out_where(is_empty(whole, "cpHashA")),
        "nonceTPM" => left_out_where(is_empty(whole, "nonceTPM")),
        _ => key_rule(whole, name),
    }
}

// A member of a SIGNED or an AUTHORIZE that is about its key.
fn key_rule(whole: &Value, name: &str) -> Rule
    ensures { result ≡ rule_in (key_rows (view whole.now)) name.now }
{
    match name {
        "keyPublic" => Rule::Inner(Part::KeyPublic),
        "keyPEMhashAlg" => left_out_where(!has(whole, "keyPEM")),
        "rsaScheme" => left_out_where(!has(whole, "keyPEM")),
        "publicKeyHint" => left_out_where(!has(whole, "keyPEM")),
        _ => Rule::Same,
    }
}

// A member of an AUTHORIZE.
fn authorize_rule(whole: &Value, name: &str) -> Rule
    ensures { result
        ≡ rule_in (element_rows (Some (Leaf leaf.Authorize)) (view whole.now)) name.now }
{
    match name {
        "keyName" => left_out_where(has(whole, "keyPublic")),
        _ => key_rule(whole, name),
    }
}

// A member of an NV.
fn nv_rule(whole: &Value, name: &str) -> Rule
    ensures { result ≡ rule_in (element_rows (Some (Leaf leaf.Nv)) (view whole.now)) name.now }
{
    match name {
        "nvIndex" => left_out_where(has_object(whole, "nvPublic")),
        "nvPublic" => Rule::Inner(Part::IndexPublic),
        _ => Rule::Same,
    }
}

// A member of a DUPLICATIONSELECT.
fn duplication_rule(whole: &Value, name: &str) -> Rule
    ensures { result
        ≡ rule_in (element_rows (Some (Leaf leaf.DuplicationSelect)) (view whole.now)) name.now }
{
    match name {
        "newParentPublic" => parent_rule(is_parent_named(whole)),
        _ => Rule::Same,
    }
}

fn parent_rule(is_named: bool) -> Rule
    ensures { result ≡ parent_rule is_named }
{
    if is_named {
        Rule::LeftOut
    } else {
        Rule::Inner(Part::KeyPublic)
    }
}

// A member of an element of this type.
fn leaf_rule(leaf: LeafType, whole: &Value, name: &str) -> Rule
    ensures { result ≡ rule_in (element_rows (Some (Leaf leaf)) (view whole.now)) name.now }
{
    match leaf {
        LeafType::Nv => nv_rule(whole, name),
        LeafType::Secret => secret_rule(whole, name),
        LeafType::Signed => signed_rule(whole, name),
        LeafType::Authorize => authorize_rule(whole, name),
        LeafType::AuthorizeNv => rule_where(name, "nvPublic", Rule::Inner(Part::IndexPublic)),
        LeafType::Locality => rule_where(
            name,
            "locality",
            Rule::Edited(Edit::Number(Flags::OfLocality)),
        ),
        LeafType::CommandCode => rule_where(name, "code", Rule::Edited(Edit::Code)),
        LeafType::DuplicationSelect => duplication_rule(whole, name),
        LeafType::Pcr
        | LeafType::CpHash
        | LeafType::NameHash
        | LeafType::CounterTimer
        | LeafType::NvWritten
        | LeafType::AuthValue
        | LeafType::Password
        | LeafType::PhysicalPresence => Rule::Same,
    }
}

// The rule where the name is this one.
fn rule_where(name: &str, row: &str, rule: Rule) -> Rule
    ensures { result ≡ rule_in ((row.now, rule) ∷ []) name.now }
{
    if name == row { rule } else { Rule::Same }
}

// A member of an element.
fn element_rule(found: Option<ElementType>, whole: &Value, name: &str) -> Rule
    ensures { result ≡ rule_in (rows_of (Part.Element found) (view whole.now)) name.now }
{
    if name == "policyDigests" {
        return Rule::LeftOut;
    }
    match found {
        Some(ElementType::Or) => rule_where(name, "branches", Rule::Inner(Part::Branches)),
        Some(ElementType::Leaf(leaf)) => leaf_rule(leaf, whole, name),
        Some(ElementType::Unsupported) | None => Rule::Same,
    }
}

// A member of an index's public area.
fn index_rule(whole: &Value, name: &str) -> Rule
    ensures { result ≡ rule_in (rows_of Part.IndexPublic (view whole.now)) name.now }
{
    if has(whole, "nvPublic") {
        return wrapper_rule(name, "nvPublic", Part::IndexPublic);
    }
    rule_where(
        name,
        "attributes",
        Rule::Edited(Edit::Number(Flags::OfIndex)),
    )
}

// A member of a wrapper of a public area, beside which stands its size.
fn wrapper_rule(name: &str, wrapper: &str, part: Part) -> Rule
    ensures { result ≡ rule_in (wrapper_rows true wrapper.now part []) name.now }
{
    if name == "size" {
        Rule::LeftOut
    } else {
        rule_where(name, wrapper, Rule::Inner(part))
    }
}

// A member of a key's public area.
fn object_rule(whole: &Value, name: &str) -> Rule
    ensures { result ≡ rule_in (rows_of Part.KeyPublic (view whole.now)) name.now }
{
    if has(whole, "publicArea") {
        return wrapper_rule(name, "publicArea", Part::KeyPublic);
    }
    match name {
        "objectAttributes" => Rule::Edited(Edit::Number(Flags::OfObject)),
        "parameters" => left_out_where(inner_scheme(whole).is_some()),
        _ => Rule::Same,
    }
}

fn document_rule(name: &str) -> Rule
    ensures { result ≡ rule_in (rows_of Part.Document null) name.now }
{
    match name {
        "policy" => Rule::Inner(Part::Elements),
        "policyAuthorizations" => Rule::Inner(Part::Approvals),
        _ => Rule::Same,
    }
}

fn branch_rule(name: &str) -> Rule
    ensures { result ≡ rule_in (rows_of Part.Branch null) name.now }
{
    match name {
        "policyDigests" => Rule::LeftOut,
        "policy" => Rule::Inner(Part::Elements),
        _ => Rule::Same,
    }
}

fn approval_rule(name: &str) -> Rule
    ensures { result ≡ rule_in (rows_of Part.Approval null) name.now }
{
    match name {
        "key" | "keyPublic" => Rule::Inner(Part::KeyPublic),
        "signature" => Rule::Edited(Edit::Signature),
        _ => Rule::Same,
    }
}

/// What becomes of a member of that name of an object.
#[tactic(auto, unfolding(crate::specs::Rules::member_rule))]
pub fn member_rule(part: Part, whole: &Value, name: &str) -> Rule
    ensures { result ≡ member_rule part (view whole.now) name.now }
{
    match part {
        Part::Document => document_rule(name),
        Part::Element(found) => element_rule(found, whole, name),
        Part::Branch => branch_rule(name),
        Part::IndexPublic => index_rule(whole, name),
        Part::KeyPublic => object_rule(whole, name),
        Part::Approval => approval_rule(name),
        Part::Elements | Part::Branches | Part::Approvals => Rule::Same,
    }
}

/// What becomes of an item of a list.
#[tactic(auto, unfolding(crate::specs::Rules::item_rule))]
pub fn item_rule(alloc: Global, part: Part, item: &Value) -> Result<Rule, NoMemory>
    ensures { IfOk result (λ rule. rule ≡ item_rule part (view item.now)) }
{
    match part {
        Part::Elements => Ok(Rule::Inner(Part::Element(type_of(alloc, item)?))),
        Part::Branches => Ok(Rule::Inner(Part::Branch)),
        Part::Approvals if is_asymmetric(item) => Ok(Rule::LeftOut),
        Part::Approvals => Ok(Rule::Inner(Part::Approval)),
        _ => Ok(Rule::Same),
    }
}

/// The scheme that an object gets in the place of its parameters.
#[tactic(auto, unfolding(crate::specs::Rules::new_scheme))]
pub fn new_scheme(part: Part, whole: &Value) -> Option<&'static str>
    ensures { option_map (λ text. text.now) result ≡ new_scheme part (view whole.now) }
{
    match part {
        Part::KeyPublic if !has(whole, "publicArea") => inner_scheme(whole),
        _ => None,
    }
}
