//! Texts that are compared as they stand, case and all.

ghost use Rattle.std.specs.Prelude.{◌≡◌, map};
ghost use Rattle.serde_json.specs.View.{view};
ghost use Rattle.tpol_adopt.specs.Words.{has, meaning_of_word, says};

use serde_json::Value;
use tpol_json::member;

/// What the first of these words that the text is stands for.
#[tactic(auto, unfolding(crate::specs::Words::meaning_of_word))]
pub fn meaning_of_word<T: Copy>(words: &[(&str, T)], text: &str) -> Option<T>
    ensures { result ≡ meaning_of_word (map (λ word. (word.0.now, word.1)) words.now) text.now }
{
    for (word, meaning) in words {
        if *word == text {
            return Some(*meaning);
        }
    }
    None
}

/// Whether the object has a member of that name, whatever it says.
pub fn has(value: &Value, name: &str) -> bool
    ensures { result ≡ has name.now (view value.now) }
{
    member(value, name).is_some()
}

/// Whether the object has a member of that name that is this text.
pub fn says(value: &Value, name: &str, word: &str) -> bool
    ensures { result ≡ says name.now word.now (view value.now) }
{
    match member(value, name).and_then(Value::as_str) {
        Some(text) => text == word,
        None => false,
    }
}
