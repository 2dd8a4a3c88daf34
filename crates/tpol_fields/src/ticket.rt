use tpol_base::Blob;

/// A ticket (TPM 2.0 Part 2, TPMT_TK_VERIFIED and TPMT_TK_AUTH).
#[derive(Drop)]
pub struct Ticket {
    /// The structure's tag: TPM_ST_VERIFIED (0x8022) of a verified signature, TPM_ST_AUTH_SECRET (0x8023) of
    /// PolicySecret, TPM_ST_AUTH_SIGNED (0x8025) of PolicySigned.
    pub tag: u16,
    /// The hierarchy of the proof.
    pub hierarchy: u32,
    /// The HMAC, at most 64 bytes.
    pub digest: Blob,
}
