//! Single values that FAPI spells otherwise than the profile.

ghost use Rattle.std.specs.Prelude.{◌≡◌, IfOk, option_and_then};
ghost use Rattle.serde_json.specs.Find.{as_object, as_str};
ghost use Rattle.serde_json.specs.View.{view};
ghost use Rattle.tpol_adopt.specs.Codes.{other_codes};
ghost use Rattle.tpol_adopt.specs.Edits.{edited, number_or};
ghost use Rattle.tpol_adopt.specs.Flags.{bits_from};
ghost use Rattle.tpol_adopt.specs.Words.{meaning_of_word};

use crate::codes::other_codes;
use crate::flags::{Flags, bits_of};
use crate::schemes::hmac_digest;
use crate::words::meaning_of_word;
use serde_json::Value;
use std::alloc::Global;
use tpol_base::NoMemory;

/// What a value becomes.
#[derive(Clone, Copy)]
pub enum Edit {
    /// An object of flags becomes its number.
    Number(Flags),
    /// The name of a command that the profile lacks becomes its code.
    Code,
    /// An HMAC's signature becomes its digest.
    Signature,
}

/// A value in the profile's spelling; one that is not spelled as the edit says stays.
pub fn edited(alloc: Global, edit: Edit, value: &Value) -> Result<Value, NoMemory>
    ensures { IfOk result (λ v. view v ≡ edited edit (view value.now)) }
{
    match edit {
        Edit::Number(flags) => number_or(value, bits_of_value(flags, value)),
        Edit::Code => number_or(value, other_code(value)),
        Edit::Signature => match hmac_digest(value) {
            Some(digest) => Ok(Value::String(String::from_str(alloc, digest)?)),
            None => Ok(value.clone()?),
        },
    }
}

fn number_or(value: &Value, number: Option<u32>) -> Result<Value, NoMemory>
    ensures { IfOk result (λ v. view v ≡ number_or number (view value.now)) }
{
    match number {
        Some(number) => Ok(Value::from(number)),
        None => Ok(value.clone()?),
    }
}

fn bits_of_value(flags: Flags, value: &Value) -> Option<u32>
    ensures { result ≡ option_and_then (bits_from flags 0) (as_object (view value.now)) }
{
    bits_of(flags, value.as_object()?)
}

fn other_code(value: &Value) -> Option<u32>
    ensures { result ≡ option_and_then (meaning_of_word other_codes) (as_str (view value.now)) }
{
    meaning_of_word(other_codes(), value.as_str()?)
}
