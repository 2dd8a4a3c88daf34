//! The entities that the tests' policies name.

use crate::vectors::ENDORSEMENT_POLICY;
use std::alloc::Global;
use tpol_base::{Blob, NoMemory, Text};
use tpol_name::{IndexEntry, NvPublic, ObjectEntry, ObjectPublic, Scheme};

/// The public area of the owner's index, which holds the endorsement hierarchy's policy.
pub fn policy_index(alloc: Global, attributes: u32) -> Result<NvPublic, NoMemory> {
    Ok(NvPublic {
        index: 0x01c0_7f01,
        attributes,
        auth_policy: Blob::from_slice(alloc, ENDORSEMENT_POLICY)?,
        size: 34,
    })
}

/// The public area of the approver's key.
pub fn signing_key(alloc: Global) -> Result<ObjectPublic, NoMemory> {
    Ok(ObjectPublic {
        attributes: 0x0004_0040,
        auth_policy: Blob::new(alloc),
        scheme: Scheme::HmacKey,
        unique: Blob::from_slice(alloc, &[0x11; 32])?,
    })
}

/// The approver's key.
pub fn approver(alloc: Global) -> Result<ObjectEntry, NoMemory> {
    let secret = Blob::from_slice(alloc, b"key")?;
    let path = Text::from_str(alloc, "/HS/SRK/approver")?;
    Ok(ObjectEntry {
        path,
        handle: 0x8000_0001,
        public: signing_key(alloc)?,
        auth: Blob::new(alloc),
        secret,
    })
}

/// The owner's index.
pub fn owner_index(alloc: Global) -> Result<IndexEntry, NoMemory> {
    let auth = Blob::from_slice(alloc, b"pin")?;
    let content = Blob::from_slice(alloc, &[0; 34])?;
    let path = Text::from_str(alloc, "/nv/Owner/policy")?;
    Ok(IndexEntry {
        path,
        public: policy_index(alloc, 0x020f_1008)?,
        auth,
        content,
    })
}
