//! The digest of the Names that a POLICYNAMEHASH names.

ghost use Rattle.std.specs.Prelude.{◌≡◌, map};
ghost use Rattle.std.specs.Option.{option_copied};
ghost use Rattle.tpol_fill.specs.Entities.{or_empty, path_name};
ghost use Rattle.tpol_fill.specs.Filling.{filled_names, names_digest, names_faults, path_faults};
ghost use Rattle.tpol_fill.specs.Outcome.{Fills, each_fault};

use crate::FillFault;
use crate::entities::name_at;
use crate::fault::fault_at;
use std::alloc::Global;
use tpol_base::{Digest32, Name, Text};
use tpol_hash::Hasher;
use tpol_json::PlaceRef;
use tpol_name::Sight;
use tpol_tree::NamesWish;

/// The digest of the Names of an element that stands at `place`.
pub fn fill_names(
    alloc: Global,
    wish: &NamesWish,
    sight: Option<&Sight>,
    place: &PlaceRef<'_>,
) -> Result<Digest32, FillFault>
    ensures { Fills (names_faults (option_copied sight.entry) place.now wish.now)
        (λ digest. digest ≡ filled_names wish.now (option_copied sight.entry)) result }
{
    match wish {
        NamesWish::Digest(digest) => Ok(*digest),
        NamesWish::Names(names) => Ok(digest_of_names(names.as_slice())),
        NamesWish::Paths(paths) => {
            let list = place.member("namePaths");
            digest_of_paths(alloc, paths.as_slice(), sight, &list)
        }
    }
}

// The digest of the Names of what has these paths.
fn digest_of_paths(
    alloc: Global,
    paths: &[Text],
    sight: Option<&Sight>,
    list: &PlaceRef<'_>,
) -> Result<Digest32, FillFault>
    ensures { Fills (each_fault (path_faults (option_copied sight.entry) list.now) 0 paths.now)
        (λ digest. digest ≡ names_digest
        (map (λ path. or_empty (path_name path (option_copied sight.entry))) paths.now)) result }
{
    let mut hasher = Hasher::new();
    for (index, path) in paths.iter().enumerate() {
        match name_at(path.as_str(), sight) {
            Ok(name) => hasher.put_name(&name),
            Err(kind) => {
                return Err(fault_at(alloc, kind, &list.item(index)));
            }
        }
    }
    Ok(hasher.done())
}

// The digest of Names joined.
fn digest_of_names(names: &[Name]) -> Digest32
    ensures { result ≡ names_digest names.now }
{
    let mut hasher = Hasher::new();
    for name in names {
        hasher.put_name(name);
    }
    hasher.done()
}
