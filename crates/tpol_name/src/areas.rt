//! Public areas and the Names made of them.

ghost use Rattle.std.specs.Prelude.{◌≡◌, ℕ, List, ◌++◌};
ghost use Rattle.tpol_hash.specs.Messages.{Holds};
ghost use Rattle.tpol_base.specs.Sized.{sized};
ghost use Rattle.tpol_name.specs.Areas.{index_name, is_signing_key, is_written, may_sign, object_name, with_written};
ghost use Rattle.std.proofs.Common.{rules};

use tpol_base::attributes::{NV_WRITTEN, OBJECT_SIGN, has_attribute};
use tpol_base::constants::{TPM_ALG_HMAC, TPM_ALG_KEYEDHASH, TPM_ALG_NULL, TPM_ALG_SHA256};
use tpol_base::{Blob, ExactClone, Name};
use tpol_hash::Hasher;

/// The attribute TPMA_NV_WRITTEN of an index: bit 29 (TPM 2.0 Part 2, TPMA_NV).
pub const WRITTEN: u32 = NV_WRITTEN;

/// What a keyed-hash object is for (TPM 2.0 Part 2, TPMT_KEYEDHASH_SCHEME).
#[derive(Clone, Copy, Debug, PartialEq, Eq)]
pub enum Scheme {
    /// A sealed secret: the scheme NULL.
    Sealed,
    /// A key for HMAC over SHA-256.
    HmacKey,
}

/// The public area of a keyed-hash object (TPM 2.0 Part 2, TPMT_PUBLIC): its attributes (TPMA_OBJECT), an
/// authPolicy of 0 or 32 bytes, its scheme, and a unique field of 0 or 32 bytes. The name algorithm is SHA-256.
#[derive(Clone, Drop)]
pub struct ObjectPublic {
    pub attributes: u32,
    pub auth_policy: Blob,
    pub scheme: Scheme,
    pub unique: Blob,
}

/// The public area of an NV index (TPM 2.0 Part 2, TPMS_NV_PUBLIC): its handle, its attributes (TPMA_NV),
/// an authPolicy of 0 or 32 bytes, and the size of its content in bytes. The name algorithm is SHA-256.
#[derive(Clone, Drop)]
pub struct NvPublic {
    pub index: u32,
    pub attributes: u32,
    pub auth_policy: Blob,
    pub size: u16,
}

impl ExactClone for ObjectPublic {
    ghost same = { Prim.search rules };
}

impl ExactClone for NvPublic {
    ghost same = { Prim.search rules };
}

/// The Name of an object: TPM_ALG_SHA256 (0x000b) and the SHA-256 of its public area (TPM 2.0 Part 1,
/// "Names").
pub fn object_name(public: &ObjectPublic) -> Name
    ensures name { result ≡ object_name public.now }
{
    object_name_of_parts(
        public.attributes,
        public.auth_policy.as_slice(),
        public.scheme,
        public.unique.as_slice(),
    )
}

/// The Name of the object with this public area.
pub fn object_name_of_parts(
    attributes: u32,
    auth_policy: &[u8],
    scheme: Scheme,
    unique: &[u8],
) -> Name
    ensures name { result ≡ object_name (record {
      attributes = attributes;
      auth_policy = auth_policy.now;
      scheme = scheme;
      unique = unique.now;
    }) }
{
    let mut hasher = Hasher::new();
    hasher.put(&TPM_ALG_KEYEDHASH.to_be_bytes());
    hasher.put(&TPM_ALG_SHA256.to_be_bytes());
    hasher.put(&attributes.to_be_bytes());
    hasher.put_sized(auth_policy);
    match scheme {
        Scheme::Sealed => hasher.put(&TPM_ALG_NULL.to_be_bytes()),
        Scheme::HmacKey => {
            hasher.put(&TPM_ALG_HMAC.to_be_bytes());
            hasher.put(&TPM_ALG_SHA256.to_be_bytes());
        }
    }
    hasher.put_sized(unique);
    Name::Hash(hasher.done())
}

/// The Name of an NV index: TPM_ALG_SHA256 (0x000b) and the SHA-256 of its public area (TPM 2.0 Part 1,
/// "Names").
pub fn nv_name(public: &NvPublic) -> Name
    ensures name { result ≡ index_name public.now }
{
    index_name_of_parts(
        public.index,
        public.attributes,
        public.auth_policy.as_slice(),
        public.size,
    )
}

/// The Name that an NV index has once it is written.
pub fn nv_name_once_written(public: &NvPublic) -> Name
    ensures name { result ≡ index_name (with_written public.now) }
{
    index_name_of_parts(
        public.index,
        public.attributes | NV_WRITTEN,
        public.auth_policy.as_slice(),
        public.size,
    )
}

/// The Name of the index with this public area.
pub fn index_name_of_parts(index: u32, attributes: u32, auth_policy: &[u8], size: u16) -> Name
    ensures name { result ≡ index_name (record {
      index = index;
      attributes = attributes;
      auth_policy = auth_policy.now;
      size = size;
    }) }
{
    let mut hasher = Hasher::new();
    hasher.put(&index.to_be_bytes());
    hasher.put(&TPM_ALG_SHA256.to_be_bytes());
    hasher.put(&attributes.to_be_bytes());
    hasher.put_sized(auth_policy);
    hasher.put(&size.to_be_bytes());
    Name::Hash(hasher.done())
}

/// Whether an index has the attribute WRITTEN.
pub fn written(public: &NvPublic) -> bool
    ensures attribute { result ≡ is_written public.now.attributes }
{
    has_attribute(public.attributes, NV_WRITTEN)
}

/// Whether an object is an HMAC key that may sign: its attribute sign is set.
pub fn is_signing_key(public: &ObjectPublic) -> bool
    ensures key { result ≡ is_signing_key public.now }
{
    may_sign(public.scheme, public.attributes)
}

/// The same of an object with this scheme and these attributes.
pub fn may_sign(scheme: Scheme, attributes: u32) -> bool
    ensures key { result ≡ may_sign scheme attributes }
{
    scheme == Scheme::HmacKey && has_attribute(attributes, OBJECT_SIGN)
}
