//! Words of which one has to stand.

ghost use Rattle.std.specs.Prelude.{map};
ghost use Rattle.serde_json.specs.View.{view};
ghost use Rattle.tpol_json.specs.Reading.{Gives};
ghost use Rattle.tpol_members.specs.Words.{only_word};

use crate::{ElementFault, PolicyKind};
use serde_json::Value;
use std::alloc::Global;
use tpol_json::{PlaceRef, refuse, word};

/// What the first of these words stands for that the value is a text of, in any case and with or without the prefix.
/// Another text is refused with the kind given, a value of another JSON kind with `WrongKind`.
pub fn only_word<T: Copy>(
    alloc: Global,
    value: &Value,
    prefix: &str,
    words: &[(&str, T)],
    kind: PolicyKind,
    place: &PlaceRef<'_>,
) -> Result<T, ElementFault>
    ensures { Gives result (only_word prefix.now (map (λ word. (word.0.now, word.1)) words.now) kind
        (view value.now) place.now) }
{
    match word(alloc, value, prefix, words, place)? {
        Some(meaning) => Ok(meaning),
        None => refuse(alloc, kind, place),
    }
}
