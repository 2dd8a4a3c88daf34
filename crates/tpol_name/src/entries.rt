//! The entities of a machine, and the lines of its directory.

ghost use Rattle.std.proofs.Common.{rules};

use crate::{NvPublic, ObjectPublic};
use tpol_base::{Blob, ExactClone, Name, Sequence, Text};

/// A loaded object: its path in the key store, its handle (0x80000000 to 0x80ffffff), its public area, its
/// authorization value (at most 32 bytes, the last not zero), and its secret, which is the sealed data or
/// the HMAC key (at most 128 bytes).
#[derive(Clone, Drop)]
pub struct ObjectEntry {
    pub path: Text,
    pub handle: u32,
    pub public: ObjectPublic,
    pub auth: Blob,
    pub secret: Blob,
}

/// An NV index: its path, its public area, its authorization value, and its content. The content has as
/// many bytes as the area says, and they are zero until the index is written.
#[derive(Clone, Drop)]
pub struct IndexEntry {
    pub path: Text,
    pub public: NvPublic,
    pub auth: Blob,
    pub content: Blob,
}

/// One line of a directory: an entity's path, handle, Name and attributes.
#[derive(Clone, Drop)]
pub struct DirEntry {
    pub path: Text,
    pub handle: u32,
    pub name: Name,
    pub attributes: u32,
}

/// A list of objects.
pub type Objects = Sequence<ObjectEntry>;

/// A list of indices.
pub type Indices = Sequence<IndexEntry>;

/// The objects of a machine and then its indices, each with its Name.
pub type Directory = Sequence<DirEntry>;

impl ExactClone for ObjectEntry {
    ghost same = { Prim.search rules };
}

impl ExactClone for IndexEntry {
    ghost same = { Prim.search rules };
}

impl ExactClone for DirEntry {
    ghost same = { Prim.search rules };
}
