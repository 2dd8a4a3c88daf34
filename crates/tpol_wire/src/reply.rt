use crate::Ticket;
use tpol_base::{Blob, Digest32, Digests, Rc};

/// A reply to a command (TPM 2.0 Part 3): the fields behind the code 0, or the code that refused the
/// command. What a row of the table of commands fixes is no field.
#[derive(Drop)]
pub enum Reply {
    /// The session and the TPM's nonce. Table "TPM2_StartAuthSession Response".
    StartAuthSession {
        session: u32,
        nonce: Digest32,
    },
    /// The context of the session. Table "TPM2_ContextSave Response".
    ContextSave {
        sequence: u64,
        session: u32,
        digest: Digest32,
    },
    /// The session. Table "TPM2_ContextLoad Response".
    ContextLoad {
        session: u32,
    },
    /// Table "TPM2_FlushContext Response".
    FlushContext,
    /// Table "TPM2_PolicyRestart Response".
    PolicyRestart,
    /// The policyDigest. Table "TPM2_PolicyGetDigest Response".
    PolicyGetDigest {
        digest: Digest32,
    },
    /// Table "TPM2_PCR_Extend Response".
    PcrExtend,
    /// The count of changes of PCRs, the PCRs that are read, and their values. Table "TPM2_PCR_Read Response".
    PcrRead {
        counter: u32,
        mask: u32,
        digests: Digests,
    },
    /// The ticket of a signature that was verified. Table "TPM2_VerifySignature Response".
    VerifySignature {
        ticket: Ticket,
    },
    /// The secret. Table "TPM2_Unseal Response".
    Unseal {
        bytes: Blob,
    },
    /// The HMAC. Table "TPM2_HMAC Response".
    Hmac {
        digest: Digest32,
    },
    /// The bytes. Table "TPM2_NV_Read Response".
    NvRead {
        bytes: Blob,
    },
    /// Table "TPM2_NV_Write Response".
    NvWrite,
    /// Table "TPM2_NV_Increment Response".
    NvIncrement,
    /// The duplicate. Table "TPM2_Duplicate Response".
    Duplicate {
        bytes: Blob,
    },
    /// Table "TPM2_PolicyNV Response".
    PolicyNv,
    /// Table "TPM2_PolicyCpHash Response".
    PolicyCpHash,
    /// Table "TPM2_PolicyNameHash Response".
    PolicyNameHash,
    /// Table "TPM2_PolicyAuthValue Response".
    PolicyAuthValue,
    /// Table "TPM2_PolicyPassword Response".
    PolicyPassword,
    /// Table "TPM2_PolicyPhysicalPresence Response".
    PolicyPhysicalPresence,
    /// Table "TPM2_PolicyCommandCode Response".
    PolicyCommandCode,
    /// Table "TPM2_PolicyCounterTimer Response".
    PolicyCounterTimer,
    /// Table "TPM2_PolicyLocality Response".
    PolicyLocality,
    /// Table "TPM2_PolicyPCR Response".
    PolicyPcr,
    /// Table "TPM2_PolicyDuplicationSelect Response".
    PolicyDuplicationSelect,
    /// Table "TPM2_PolicyNvWritten Response".
    PolicyNvWritten,
    /// The deadline, where the expiration was negative, and the ticket that goes with it.
    /// Table "TPM2_PolicySigned Response".
    PolicySigned {
        timeout: Option<u64>,
        ticket: Ticket,
    },
    /// The deadline, where the expiration was negative, and the ticket that goes with it.
    /// Table "TPM2_PolicySecret Response".
    PolicySecret {
        timeout: Option<u64>,
        ticket: Ticket,
    },
    /// Table "TPM2_PolicyTicket Response".
    PolicyTicket,
    /// Table "TPM2_PolicyAuthorize Response".
    PolicyAuthorize,
    /// Table "TPM2_PolicyOR Response".
    PolicyOr,
    /// Table "TPM2_PolicyAuthorizeNV Response".
    PolicyAuthorizeNv,
    /// The command was refused with this code, which is not 0.
    Refused(Rc),
}
