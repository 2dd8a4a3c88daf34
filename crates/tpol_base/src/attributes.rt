//! Attributes of objects and of NV indices (TPM 2.0 Part 2, TPMA_OBJECT and TPMA_NV), and the types of indices
//! (TPM_NT).

ghost use Rattle.std.specs.Prelude.{◌≡◌};
ghost use Rattle.tpol_base.specs.Attributes.{has_attribute, index_type, is_index_type, is_size_of_type};

// ---- objects (TPMA_OBJECT)

/// Bit 4: the object cannot be duplicated to another parent.
pub const OBJECT_FIXED_PARENT: u32 = 1 << 4;

/// Bit 6: the authorization value may be used in the role USER.
pub const OBJECT_USER_WITH_AUTH: u32 = 1 << 6;

/// Bit 10: the object is outside the protection against dictionary attacks.
pub const OBJECT_NO_DA: u32 = 1 << 10;

/// Bit 16: the key only serves structures of the TPM's own.
pub const OBJECT_RESTRICTED: u32 = 1 << 16;

/// Bit 17: the key may decrypt.
pub const OBJECT_DECRYPT: u32 = 1 << 17;

/// Bit 18: the key may sign.
pub const OBJECT_SIGN: u32 = 1 << 18;

// ---- indices (TPMA_NV)

/// Bit 1: the owner may write.
pub const NV_OWNERWRITE: u32 = 1 << 1;

/// Bit 2: the index's value may be used for writing.
pub const NV_AUTHWRITE: u32 = 1 << 2;

/// Bit 3: the index's policy may be used for writing.
pub const NV_POLICYWRITE: u32 = 1 << 3;

/// Bit 12: only the whole content may be written.
pub const NV_WRITEALL: u32 = 1 << 12;

/// Bit 17: the owner may read.
pub const NV_OWNERREAD: u32 = 1 << 17;

/// Bit 18: the index's value may be used for reading.
pub const NV_AUTHREAD: u32 = 1 << 18;

/// Bit 19: the index's policy may be used for reading.
pub const NV_POLICYREAD: u32 = 1 << 19;

/// Bit 25: the index is outside the protection against dictionary attacks.
pub const NV_NO_DA: u32 = 1 << 25;

/// Bit 29: the index was written.
pub const NV_WRITTEN: u32 = 1 << 29;

// ---- types of indices (TPM_NT)

/// The content is bytes.
pub const NT_ORDINARY: u32 = 0;

/// The content is a count of eight bytes that only rises.
pub const NT_COUNTER: u32 = 1;

/// The content is eight bytes of bits that are only set.
pub const NT_BITS: u32 = 2;

/// The content is a digest that is extended.
pub const NT_EXTEND: u32 = 4;

/// Whether the attributes have this one.
pub fn has_attribute(attributes: u32, attribute: u32) -> bool
    ensures { result ≡ has_attribute attributes attribute }
{
    attributes & attribute != 0
}

/// The type of an index with these attributes: bits 4 to 7.
pub fn index_type(attributes: u32) -> u32
    ensures { result ≡ index_type attributes }
{
    (attributes >> 4) & 0xf
}

/// Whether it is one of the four types.
pub fn is_index_type(kind: u32) -> bool
    ensures { result ≡ is_index_type kind }
{
    matches!(kind, NT_ORDINARY | NT_COUNTER | NT_BITS | NT_EXTEND)
}

/// Whether the content of an index of this type may have this size, in bytes: any for ordinary ones, 8 for
/// counters and bits, 32 for those that are extended.
pub fn is_size_of_type(kind: u32, size: u16) -> bool
    ensures { result ≡ is_size_of_type kind size }
{
    match kind {
        NT_ORDINARY => true,
        NT_COUNTER | NT_BITS => size == 8,
        NT_EXTEND => size == 32,
        _ => false,
    }
}
