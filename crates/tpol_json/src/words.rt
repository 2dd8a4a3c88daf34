//! Words, which are compared without regard to ASCII case.

ghost use Rattle.std.specs.Prelude.{◌≡◌, ◌++◌, ◌↔◌, map, IsTrue};
ghost use Rattle.std.specs.Char.{to_ascii_lowercase};
ghost use Rattle.serde_json.specs.View.{view};
ghost use Rattle.tpol_json.specs.Reading.{Gives};
ghost use Rattle.tpol_json.specs.Values.{one_word};
ghost use Rattle.tpol_json.specs.Words.{find_word, same_word, word_in};

use crate::fault::refuse;
use crate::{MemberFault, MemberKind, PlaceRef};
use serde_json::Value;
use std::alloc::Global;

/// Whether the text is the word without regard to ASCII case, with or without the prefix in front.
pub fn same_word(text: &str, prefix: &str, word: &str) -> bool
    ensures { result ≡ same_word text.now prefix.now word.now }
{
    text.eq_ignore_ascii_case(word)
        || is_joined(text.as_bytes(), prefix.as_bytes(), word.as_bytes())
}

// Whether the text is the prefix and then the word, without regard to ASCII case.
fn is_joined(text: &[u8], prefix: &[u8], word: &[u8]) -> bool
    ensures { IsTrue result
        ↔ (map to_ascii_lowercase text.now ≡ map to_ascii_lowercase (prefix.now ++ word.now)) }
{
    if text.len() < prefix.len() {
        return false;
    }
    let (front, back) = text.split_at(prefix.len());
    // Texts of another length differ at once.
    back.eq_ignore_ascii_case(word) && front.eq_ignore_ascii_case(prefix)
}

/// What the first of these words that the text is, in any case and with or without the prefix, stands for.
#[tactic(auto, unfolding(crate::specs::Words::find_word))]
fn find_word<T: Copy>(text: &str, prefix: &str, words: &[(&str, T)]) -> Option<T>
    ensures { result ≡ find_word prefix.now
        (map (λ word. (word.0.now, word.1)) words.now) text.now }
{
    for (word, meaning) in words {
        if same_word(text, prefix, word) {
            return Some(*meaning);
        }
    }
    None
}

/// Of these words the first that the value is a text of, in any case and with or without the prefix: what it stands
/// for. None for a text that is none of them, and for a value that is no text.
pub fn word_in<T: Copy>(value: &Value, prefix: &str, words: &[(&str, T)]) -> Option<T>
    ensures { result ≡ word_in prefix.now (map (λ word. (word.0.now, word.1)) words.now)
        (view value.now) }
{
    match value.as_str() {
        Some(text) => find_word(text, prefix, words),
        None => None,
    }
}

/// Of these words the first that the value is a text of, in any case and with or without the prefix: what it stands
/// for. None for a text that is none of them. A value of another JSON kind is `WrongKind`.
pub fn word<T: Copy>(
    alloc: Global,
    value: &Value,
    prefix: &str,
    words: &[(&str, T)],
    place: &PlaceRef<'_>,
) -> Result<Option<T>, MemberFault>
    ensures { Gives result (one_word prefix.now (map (λ word. (word.0.now, word.1)) words.now)
        (view value.now) place.now) }
{
    match value {
        Value::String(text) => Ok(find_word(text.as_str(), prefix, words)),
        _ => refuse(alloc, MemberKind::WrongKind, place),
    }
}
