//! The kinds of entities.

ghost use Rattle.std.specs.Prelude.{◌≡◌, ◌<◌, ◌^◌};
ghost use Rattle.serde_json.specs.View.{view};
ghost use Rattle.tpol_json.specs.Reading.{Gives};
ghost use Rattle.tpol_entities.specs.Kinds.{greatest_handle, kind_in, kind_of_word, least_handle};

use crate::SceneKind;
use crate::fault::PartFault;
use serde_json::Value;
use std::alloc::Global;
use tpol_json::{PlaceRef, refuse};

/// The kinds of entities: a sealed secret, an HMAC key, an NV index.
#[derive(Clone, Copy)]
pub enum EntityKind {
    Seal,
    Key,
    Nv,
}

impl EntityKind {
    ghost use Rattle.std.specs.Prelude.{◌≡◌, ◌<◌, ◌^◌};
    ghost use Rattle.tpol_entities.specs.Kinds.{greatest_handle, least_handle};

    /// The least handle of the kind.
    pub fn least_handle(self) -> u64
        ensures value { result ≡ least_handle self }
        ensures limit { result < 2 ^ 32 }
    {
        match self {
            EntityKind::Seal | EntityKind::Key => 0x8000_0000,
            EntityKind::Nv => 0x0100_0000,
        }
    }

    /// The greatest handle of the kind.
    pub fn greatest_handle(self) -> u64
        ensures value { result ≡ greatest_handle self }
        ensures limit { result < 2 ^ 32 }
    {
        match self {
            EntityKind::Seal | EntityKind::Key => 0x80ff_ffff,
            EntityKind::Nv => 0x01ff_ffff,
        }
    }
}

/// The kind that a text names: `seal`, `key` or `nv`, exactly so. Another text is `UnknownKind`, and a value of another
/// JSON kind is `WrongKind`.
pub fn kind_of(alloc: Global, value: &Value, place: &PlaceRef<'_>) -> Result<EntityKind, PartFault>
    ensures { Gives result (kind_in (view value.now) place.now) }
{
    match value {
        Value::String(word) => kind_of_word(alloc, word.as_str(), place),
        _ => refuse(alloc, SceneKind::WrongKind, place),
    }
}

fn kind_of_word(alloc: Global, word: &str, place: &PlaceRef<'_>) -> Result<EntityKind, PartFault>
    ensures { Gives result (kind_of_word word.now place.now) }
{
    match word {
        "seal" => Ok(EntityKind::Seal),
        "key" => Ok(EntityKind::Key),
        "nv" => Ok(EntityKind::Nv),
        _ => refuse(alloc, SceneKind::UnknownKind, place),
    }
}
