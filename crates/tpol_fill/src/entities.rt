//! The Names of what a policy names by a path or by a public area.

ghost use Rattle.std.specs.Prelude.{◌≡◌, IfSome};
ghost use Rattle.std.specs.Option.{option_copied, option_map};
ghost use Rattle.std.specs.Result.{result_ok};
ghost use Rattle.tpol_fill.specs.Entities.{entity_name, index_area_of, indices_of, key_name, name_of_index_wish, object_area_of, objects_of, parent_name, path_name, scheme_of, signing_key_name};
ghost use Rattle.tpol_name.specs.Areas.{index_name, object_name, with_written};
ghost use Rattle.tpol_name.specs.Entities.{index_at, object_at};

use crate::FillKind;
use tpol_base::Name;
use tpol_name::{
    IndexEntry, ObjectEntry, Scheme, Sight, hierarchy_at, index_name_of_parts, is_signing_key,
    may_sign, object_name_of_parts,
};
use tpol_tree::{EntityWish, IndexWish, KeyWish, NvPublicText, ObjectPublicText, ParentWish};

/// The Name of a key: of an object named by path, or made of a public area as it is given. `None` exactly
/// where no object of the sight has the path, or the object or the area is not an HMAC key with the
/// attribute sign.
pub fn name_of_key(wish: &KeyWish, sight: Option<&Sight>) -> Option<Name>
    ensures name { result ≡ result_ok (key_name wish.now (option_copied sight.entry)) }
{
    name_of_key_wish(wish, sight).ok()
}

/// The Name of an index: of one named by path the Name that it has once written, or that of a public area as
/// it is given. `None` exactly where no index of the sight has the path.
pub fn name_of_index(wish: &IndexWish, sight: Option<&Sight>) -> Option<Name>
    ensures name { result ≡ result_ok (name_of_index_wish wish.now (option_copied sight.entry)) }
{
    name_of_index_wish(wish, sight).ok()
}

/// The Name of a key, or why there is none.
pub fn name_of_key_wish(wish: &KeyWish, sight: Option<&Sight>) -> Result<Name, FillKind>
    ensures { result ≡ key_name wish.now (option_copied sight.entry) }
{
    match wish {
        KeyWish::Path(path) => match object_at(sight, path.as_str()) {
            Some((object, name)) if is_signing_key(&object.public) => Ok(name),
            Some(_) => Err(FillKind::NotKeyedHash),
            None => Err(FillKind::NoSuchPath),
        },
        KeyWish::Public(text) => name_of_key_text(text),
    }
}

/// The Name of an index, or why there is none.
pub fn name_of_index_wish(wish: &IndexWish, sight: Option<&Sight>) -> Result<Name, FillKind>
    ensures { result ≡ name_of_index_wish wish.now (option_copied sight.entry) }
{
    match wish {
        IndexWish::Path(path) => match index_at(sight, path.as_str()) {
            Some((_, name)) => Ok(name),
            None => Err(FillKind::NoSuchPath),
        },
        IndexWish::Public(text) => Ok(name_of_index_text(text)),
    }
}

/// The Name of an entity, or why there is none.
pub fn name_of_entity_wish(wish: &EntityWish, sight: Option<&Sight>) -> Result<Name, FillKind>
    ensures { result ≡ entity_name wish.now (option_copied sight.entry) }
{
    match wish {
        EntityWish::Path(path) => name_at(path.as_str(), sight),
        EntityWish::Named(name) => Ok(*name),
    }
}

/// The Name of a new parent, or why there is none.
pub fn name_of_parent_wish(wish: &ParentWish, sight: Option<&Sight>) -> Result<Name, FillKind>
    ensures { result ≡ parent_name wish.now (option_copied sight.entry) }
{
    match wish {
        ParentWish::Path(path) => match object_at(sight, path.as_str()) {
            Some((_, name)) => Ok(name),
            None => Err(FillKind::NoSuchPath),
        },
        ParentWish::Public(text) => Ok(name_of_object_text(text)),
        ParentWish::Named(name) => Ok(*name),
    }
}

/// The Name of the hierarchy, object or index that has this path, or why there is none.
pub fn name_at(path: &str, sight: Option<&Sight>) -> Result<Name, FillKind>
    ensures { result ≡ path_name path.now (option_copied sight.entry) }
{
    if let Some(handle) = hierarchy_at(path) {
        return Ok(Name::Handle(handle));
    }
    if let Some((_, name)) = object_at(sight, path) {
        return Ok(name);
    }
    match index_at(sight, path) {
        Some((_, name)) => Ok(name),
        None => Err(FillKind::NoSuchPath),
    }
}

// The object of this path, and its Name, which the sight has.
fn object_at<'a>(sight: Option<&'a Sight>, path: &str) -> Option<(&'a ObjectEntry, Name)>
    ensures object { option_map (λ found. found.0.now) result
        ≡ object_at (objects_of (option_copied sight.entry)) path.now }
    ensures name { IfSome result (λ found. found.1 ≡ object_name found.0.now.public) }
{
    match sight {
        Some(sight) => sight.objects.at(path),
        None => None,
    }
}

// The index of this path, and its Name once it is written, which the sight has.
fn index_at<'a>(sight: Option<&'a Sight>, path: &str) -> Option<(&'a IndexEntry, Name)>
    ensures index { option_map (λ found. found.0.now) result
        ≡ index_at (indices_of (option_copied sight.entry)) path.now }
    ensures name { IfSome result (λ found.
        found.1 ≡ index_name (with_written found.0.now.public)) }
{
    match sight {
        Some(sight) => sight.indices.at(path),
        None => None,
    }
}

fn name_of_key_text(text: &ObjectPublicText) -> Result<Name, FillKind>
    ensures { result ≡ signing_key_name (object_area_of text.now) }
{
    if may_sign(scheme_of(text.hmac), text.attributes) {
        Ok(name_of_object_text(text))
    } else {
        Err(FillKind::NotKeyedHash)
    }
}

fn name_of_object_text(text: &ObjectPublicText) -> Name
    ensures { result ≡ object_name (object_area_of text.now) }
{
    object_name_of_parts(
        text.attributes,
        text.auth_policy.as_slice(),
        scheme_of(text.hmac),
        text.unique.as_slice(),
    )
}

fn scheme_of(hmac: bool) -> Scheme
    ensures { result ≡ scheme_of hmac }
{
    if hmac {
        Scheme::HmacKey
    } else {
        Scheme::Sealed
    }
}

fn name_of_index_text(text: &NvPublicText) -> Name
    ensures { result ≡ index_name (index_area_of text.now) }
{
    index_name_of_parts(
        text.index,
        text.attributes,
        text.auth_policy.as_slice(),
        text.size,
    )
}
