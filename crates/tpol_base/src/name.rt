//! Names of entities and their bytes.

ghost use Rattle.std.specs.Prelude.{◌≡◌, ◌≤◌, ◌∷◌, IfSome, IfNone, IfOk, length};
ghost use Rattle.tpol_base.specs.Name.{name_bytes, name_of_bytes};
ghost use Rattle.tpol_base.specs.declared.name.Name.{Name as EntityName};

use crate::constants::TPM_ALG_SHA256;
use crate::{Blob, Digest32, NoMemory};
use std::alloc::Global;
use std::marker::Model;

/// The Name of an entity (TPM 2.0 Part 1, "Names"). Its bytes are nothing, the four bytes of a handle
/// (hierarchies, PCRs, sessions), or the two bytes of TPM_ALG_SHA256 (0x000b) and a digest (objects and indices).
#[derive(Clone, Copy, PartialEq, Eq)]
pub enum Name {
    /// No Name, where an entity has none.
    Empty,
    /// The Name of what has no public area: its handle.
    Handle(u32),
    /// The Name of an object or an index: the digest of its public area.
    Hash(Digest32),
}

impl Name {
    /// The Name that these bytes are; `None` exactly where they are of none of the three forms.
    pub fn from_bytes(bytes: &[u8]) -> Option<Name>
        ensures value { result ≡ name_of_bytes bytes.now }
        ensures some { IfSome result (λ name. name_bytes name ≡ bytes.now) }
        ensures none { IfNone result ((name : EntityName) → name_bytes name ≡ bytes.now → ⊥) }
    {
        match bytes.len() {
            0 => Some(Name::Empty),
            4 => Some(Name::Handle(u32::from_be_bytes([bytes[0], bytes[1], bytes[2], bytes[3]]))),
            34 => hash_name(bytes),
            _ => None,
        }
    }

    /// The bytes of the Name: 0, 4 or 34. They take no memory.
    pub fn bytes(&self) -> NameBytes
        ensures { result ≡ name_bytes self.now }
    {
        match self {
            Name::Empty => NameBytes::of(&[]),
            Name::Handle(handle) => NameBytes::of(&handle.to_be_bytes()),
            Name::Hash(digest) => NameBytes::of_hash(digest),
        }
    }

    /// The bytes of the Name: 0, 4 or 34.
    pub fn to_bytes(&self, alloc: Global) -> Result<Blob, NoMemory>
        ensures { IfOk result (λ bytes. bytes ≡ name_bytes self.now) }
    {
        Blob::from_slice(alloc, self.bytes().as_slice())
    }
}

/// The greatest number of bytes of a Name: an algorithm and a digest.
const GREATEST: usize = 34;

/// The bytes of a Name; contracts see the list of them.
#[derive(Drop)]
pub struct NameBytes {
    bytes: [u8; GREATEST],
    count: usize,
}

impl Model for NameBytes {
    ghost use Rattle.std.specs.Prelude.{◌≤◌, List, ℕ, take};

    ghost Value = { List ℕ };

    ghost view = { λ n. take n.count n.bytes };

    ghost invariant = { λ n. n.count ≤ 34 };
}

impl NameBytes {
    // These bytes.
    fn of(bytes: &[u8]) -> NameBytes
        requires { length bytes.now ≤ 34 }
        ensures { result ≡ bytes.now }
    {
        let mut all = [0; GREATEST];
        all[..bytes.len()].copy_from_slice(bytes);
        NameBytes {
            bytes: all,
            count: bytes.len(),
        }
    }

    // The algorithm's number and the digest.
    fn of_hash(digest: &Digest32) -> NameBytes
        ensures { result ≡ 0x00 ∷ 0x0b ∷ digest.now.bytes }
    {
        let mut bytes = [0; GREATEST];
        bytes[1] = TPM_ALG_SHA256 as u8;
        bytes[2..].copy_from_slice(&digest.bytes);
        NameBytes {
            bytes,
            count: GREATEST,
        }
    }

    /// The bytes in order.
    pub fn as_slice(&self) -> &[u8]
        ensures { result.now ≡ self.now }
    {
        &self.bytes[..self.count]
    }
}

fn hash_name(bytes: &[u8]) -> Option<Name>
    requires { length bytes.now ≡ 34 }
    ensures value { result ≡ name_of_bytes bytes.now }
    ensures some { IfSome result (λ name. name_bytes name ≡ bytes.now) }
    ensures none { IfNone result ((name : EntityName) → name_bytes name ≡ bytes.now → ⊥) }
{
    if bytes[0] != 0 || bytes[1] != 11 {
        return None;
    }
    Some(Name::Hash(Digest32::from_slice(&bytes[2..])))
}
