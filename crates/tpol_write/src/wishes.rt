//! Keys, indices, entities and parents as they are asked for.

ghost use Rattle.std.specs.Prelude.{OnOk};
ghost use Rattle.tpol_write.specs.Drafts.{Adds, member_tokens, members_tokens, Reads};
ghost use Rattle.tpol_write.specs.Wishes.{key_member, index_member, entity_member, parent_member, cp_hash_members};

use crate::draft::Draft;
use crate::members::{put_digest, put_name, put_text};
use crate::publics::{write_nv_public, write_object_public};
use std::alloc::Global;
use tpol_base::{Digest32, NoMemory};
use tpol_tree::{EntityWish, IndexWish, KeyWish, ParentWish};

/// Writes the member of a key: its path, or its public area.
pub fn put_key(draft: &mut Draft, alloc: Global, key: &KeyWish) -> Result<(), NoMemory>
    ensures tokens { OnOk result (Adds draft.old draft.new (member_tokens (key_member key.now))) }
    ensures reads { OnOk result (Reads (key_member key.now).1) }
{
    match key {
        KeyWish::Path(path) => put_text(draft, "keyPath", path),
        KeyWish::Public(area) => {
            draft.name("keyPublic")?;
            write_object_public(draft, alloc, area)
        }
    }
}

/// Writes the member of an index: its path, or its public area.
pub fn put_index(draft: &mut Draft, alloc: Global, index: &IndexWish) -> Result<(), NoMemory>
    ensures tokens { OnOk result
        (Adds draft.old draft.new (member_tokens (index_member index.now))) }
    ensures reads { OnOk result (Reads (index_member index.now).1) }
{
    match index {
        IndexWish::Path(path) => put_text(draft, "nvPath", path),
        IndexWish::Public(area) => {
            draft.name("nvPublic")?;
            write_nv_public(draft, alloc, area)
        }
    }
}

/// Writes the member of an entity: its path, or its Name.
pub fn put_entity(draft: &mut Draft, alloc: Global, entity: &EntityWish) -> Result<(), NoMemory>
    ensures { OnOk result (Adds draft.old draft.new (member_tokens (entity_member entity.now))) }
{
    match entity {
        EntityWish::Path(path) => put_text(draft, "objectPath", path),
        EntityWish::Named(name) => put_name(draft, alloc, "objectName", name),
    }
}

/// Writes the member of a new parent: its path, its public area, or its Name.
pub fn put_parent(draft: &mut Draft, alloc: Global, parent: &ParentWish) -> Result<(), NoMemory>
    ensures tokens { OnOk result
        (Adds draft.old draft.new (member_tokens (parent_member parent.now))) }
    ensures reads { OnOk result (Reads (parent_member parent.now).1) }
{
    match parent {
        ParentWish::Path(path) => put_text(draft, "newParentPath", path),
        ParentWish::Public(area) => {
            draft.name("newParentPublic")?;
            write_object_public(draft, alloc, area)
        }
        ParentWish::Named(name) => put_name(draft, alloc, "newParentName", name),
    }
}

/// Writes `cpHashA`, where it is there.
pub fn put_cp_hash(
    draft: &mut Draft,
    alloc: Global,
    cp_hash: &Option<Digest32>,
) -> Result<(), NoMemory>
    ensures { OnOk result
        (Adds draft.old draft.new (members_tokens (cp_hash_members cp_hash.now))) }
{
    match cp_hash {
        Some(digest) => put_digest(draft, alloc, "cpHashA", digest),
        None => Ok(()),
    }
}
