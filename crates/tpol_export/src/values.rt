//! Single values as FAPI spells them.

ghost use Rattle.std.specs.Prelude.{◌≡◌, [], ◌∷◌, IfOk, OnOk, map, option_map};
ghost use Rattle.serde_json.specs.Find.{as_str};
ghost use Rattle.serde_json.specs.View.{members_view, view};
ghost use Rattle.tpol_adopt.specs.Words.{is_word};
ghost use Rattle.tpol_export.specs.Values.{edited, flag_entries, handle_or, hierarchy_in, number_members, object_or, scheme_value, signature_value, truth_text, type_entries, word_for};
ghost use Rattle.tpol_write.specs.Objects.{object_of, with_members};

use serde_json::{Map, Value, put};
use std::alloc::Global;
use tpol_adopt::{Flags, bits_of, index_flags, index_types, locality_flags, object_flags};
use tpol_base::NoMemory;
use tpol_name::hierarchy_at;

/// The members of a JSON object that is being made.
pub type Object = Map<String, Value>;

/// What a value becomes.
#[derive(Clone, Copy)]
pub enum Edit {
    /// A number becomes the object of its flags.
    Number(Flags),
    /// A truth value becomes `YES` or `NO`.
    Truth,
    /// A key's scheme becomes its `parameters`.
    Scheme,
    /// A digest becomes an HMAC's signature.
    Signature,
    /// The path of a hierarchy becomes its handle.
    Hierarchy,
}

/// A value in FAPI's spelling. A number that no object of flags says, what is no truth value, and what is no path of a
/// hierarchy stay; `Scheme` and `Signature` change any value.
#[tactic(auto, unfolding(crate::specs::Values::edited))]
pub fn edited(alloc: Global, edit: Edit, value: &Value) -> Result<Value, NoMemory>
    ensures { IfOk result (λ v. view v ≡ edited edit (view value.now)) }
{
    match edit {
        Edit::Number(flags) => flagged(alloc, flags, value),
        Edit::Truth => truth_text(alloc, value),
        Edit::Scheme => {
            let scheme = scheme_value(alloc, value)?;
            of_member(alloc, "scheme", scheme)
        }
        Edit::Signature => signature_value(alloc, value),
        Edit::Hierarchy => handle_or(alloc, hierarchy_in(value), value),
    }
}

// ---- attributes and localities

#[tactic(auto, unfolding(crate::specs::Values::edited))]
fn flagged(alloc: Global, flags: Flags, value: &Value) -> Result<Value, NoMemory>
    ensures { IfOk result (λ v. view v ≡ edited (Edit.Number flags) (view value.now)) }
{
    match value.as_u64() {
        Some(number) if number <= u64::from(u32::MAX) => {
            object_or(alloc, flags, number as u32, value)
        }
        _ => Ok(value.clone()?),
    }
}

// The object of a number's flags, where it says all of the number.
fn object_or(alloc: Global, flags: Flags, number: u32, value: &Value) -> Result<Value, NoMemory>
    ensures { IfOk result
        (λ v. view v ≡ object_or flags (number_members flags number) number (view value.now)) }
{
    let object = number_object(alloc, flags, number)?;
    if bits_of(flags, &object) == Some(number) {
        return Ok(Value::Object(object));
    }
    Ok(value.clone()?)
}

#[tactic(auto, unfolding(crate::specs::Values::number_members))]
fn number_object(alloc: Global, flags: Flags, number: u32) -> Result<Object, NoMemory>
    ensures { IfOk result (λ object. members_view object.entries ≡ number_members flags number) }
{
    let mut object = Object::new(alloc);
    match flags {
        Flags::OfIndex => {
            put_type(alloc, &mut object, word_for(index_types(), number & 0xf0))?;
            put_flags(alloc, &mut object, index_flags(), number)?;
        }
        Flags::OfObject => put_flags(alloc, &mut object, object_flags(), number)?,
        Flags::OfLocality => {
            put(&mut object, alloc, "Extended", Value::from(number / 32))?;
            put_flags(alloc, &mut object, locality_flags(), number)?;
        }
    }
    Ok(object)
}

// Sets the type of an index, if it has a name.
fn put_type(alloc: Global, object: &mut Object, name: Option<&str>) -> Result<(), NoMemory>
    ensures { OnOk result (members_view object.new.entries
        ≡ with_members (type_entries (option_map (λ text. text.now) name.entry))
        (members_view object.old.entries)) }
{
    match name {
        Some(name) => Ok(put(object, alloc, "TPM2_NT", Value::try_from_str(alloc, name)?)?),
        None => Ok(()),
    }
}

// The first of these words that stands for the number.
fn word_for(words: &[(&'static str, u32)], number: u32) -> Option<&'static str>
    ensures { option_map (λ text. text.now) result
        ≡ word_for (map (λ word. (word.0.now, word.1)) words.now) number }
{
    for (word, meaning) in words {
        if *meaning == number {
            return Some(*word);
        }
    }
    None
}

// Sets each flag to its bit of the number.
fn put_flags(
    alloc: Global,
    object: &mut Object,
    flags: &[(&str, u32)],
    number: u32,
) -> Result<(), NoMemory>
    ensures { OnOk result (members_view object.new.entries ≡ with_members
        (flag_entries (map (λ word. (word.0.now, word.1)) flags.now) number)
        (members_view object.old.entries)) }
{
    for (name, flag) in flags {
        let bit: u32 = if number & *flag == 0 { 0 } else { 1 };
        put(object, alloc, *name, Value::from(bit))?;
    }
    Ok(())
}

// ---- texts

fn truth_text(alloc: Global, value: &Value) -> Result<Value, NoMemory>
    ensures { IfOk result (λ v. view v ≡ truth_text (view value.now)) }
{
    match value {
        Value::Bool(true) => Ok(Value::try_from_str(alloc, "YES")?),
        Value::Bool(false) => Ok(Value::try_from_str(alloc, "NO")?),
        _ => Ok(value.clone()?),
    }
}

// The object of one member.
fn of_member(alloc: Global, name: &str, value: Value) -> Result<Value, NoMemory>
    ensures { IfOk result (λ v. view v ≡ object_of ((name.now, view value) ∷ [])) }
{
    let mut object = Object::new(alloc);
    put(&mut object, alloc, name, value)?;
    Ok(Value::Object(object))
}

// The scheme of a key: of an HMAC key with its hash.
fn scheme_value(alloc: Global, value: &Value) -> Result<Value, NoMemory>
    ensures { IfOk result (λ v. view v ≡ scheme_value (view value.now)) }
{
    let mut object = Object::new(alloc);
    if is_word(value, "HMAC") {
        let hash = Value::try_from_str(alloc, "SHA256")?;
        put(
            &mut object,
            alloc,
            "details",
            of_member(alloc, "hashAlg", hash)?,
        )?;
    }
    put(&mut object, alloc, "scheme", value.clone()?)?;
    Ok(Value::Object(object))
}

fn is_word(value: &Value, word: &str) -> bool
    ensures { result ≡ is_word word.now (as_str (view value.now)) }
{
    match value.as_str() {
        Some(text) => text == word,
        None => false,
    }
}

// An HMAC's signature.
fn signature_value(alloc: Global, digest: &Value) -> Result<Value, NoMemory>
    ensures { IfOk result (λ v. view v ≡ signature_value (view digest.now)) }
{
    let mut inner = Object::new(alloc);
    put(&mut inner, alloc, "digest", digest.clone()?)?;
    let hash = Value::try_from_str(alloc, "SHA256")?;
    put(&mut inner, alloc, "hashAlg", hash)?;
    let mut object = Object::new(alloc);
    let scheme = Value::try_from_str(alloc, "HMAC")?;
    put(&mut object, alloc, "sigAlg", scheme)?;
    put(&mut object, alloc, "signature", Value::Object(inner))?;
    Ok(Value::Object(object))
}

/// The hierarchy that a path names.
#[tactic(auto, unfolding(crate::specs::Values::hierarchy_in))]
pub fn hierarchy_in(value: &Value) -> Option<u32>
    ensures { result ≡ hierarchy_in (view value.now) }
{
    hierarchy_at(value.as_str()?)
}

fn handle_or(alloc: Global, handle: Option<u32>, value: &Value) -> Result<Value, NoMemory>
    ensures { IfOk result (λ v. view v ≡ handle_or handle (view value.now)) }
{
    match handle {
        Some(handle) => Ok(Value::String(hex::encode(alloc, handle.to_be_bytes())?)),
        None => Ok(value.clone()?),
    }
}
