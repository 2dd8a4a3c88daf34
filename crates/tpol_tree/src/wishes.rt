//! What a written policy names: PCRs, keys, indices, entities, parents and Names.

use crate::{Names, PcrValues};
use tpol_base::{Blob, Digest32, Name, Text, Texts};

/// The PCRs of a POLICYPCR: their values as written, or the current values of a set (bit n for PCR n,
/// 0 to 31).
#[derive(Drop)]
pub enum PcrWish {
    Values(PcrValues),
    Current(u32),
}

/// A key: by the path of an object, or by its public area.
#[derive(Drop)]
pub enum KeyWish {
    Path(Text),
    Public(ObjectPublicText),
}

/// An NV index: by its path, or by its public area.
#[derive(Drop)]
pub enum IndexWish {
    Path(Text),
    Public(NvPublicText),
}

/// An entity: by its path, or by its Name.
#[derive(Drop)]
pub enum EntityWish {
    Path(Text),
    Named(Name),
}

/// A new parent: by the path of an object, by its public area, or by its Name.
#[derive(Drop)]
pub enum ParentWish {
    Path(Text),
    Public(ObjectPublicText),
    Named(Name),
}

/// The Names of a command's handles: their digest, 1 to 3 Names, or 1 to 3 paths.
#[derive(Drop)]
pub enum NamesWish {
    Digest(Digest32),
    Names(Names),
    Paths(Texts),
}

/// The public area of a keyed-hash object as it is written (TPM 2.0 Part 2, TPMT_PUBLIC): the attributes,
/// an authPolicy of 0 or 32 bytes, whether the scheme is HMAC (else NULL), and a unique field of 0 or 32
/// bytes. The name algorithm is SHA-256.
#[derive(Drop)]
pub struct ObjectPublicText {
    pub attributes: u32,
    pub auth_policy: Blob,
    pub hmac: bool,
    pub unique: Blob,
}

/// The public area of an NV index as it is written (TPM 2.0 Part 2, TPMS_NV_PUBLIC): the handle
/// (0x01000000 to 0x01ffffff), the attributes, an authPolicy of 0 or 32 bytes, and the size of the content
/// in bytes (1 to 2,048). The name algorithm is SHA-256.
#[derive(Drop)]
pub struct NvPublicText {
    pub index: u32,
    pub attributes: u32,
    pub auth_policy: Blob,
    pub size: u16,
}

/// An authorization of a document: by a key's signature over its digest and policyRef, or by an index that
/// holds its digest.
#[derive(Drop)]
pub enum ApprovalWish {
    ByKey {
        key: KeyWish,
        policy_ref: Blob,
        signature: Digest32,
    },
    ByIndex {
        index: IndexWish,
    },
}
