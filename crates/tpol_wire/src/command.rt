use crate::{AuthArea, Ticket};
use tpol_base::{Blob, Compare, Digest32, Digests, Name};

/// A command (TPM 2.0 Part 3). Its fields are the handles, the authorization and the parameters in the
/// order of the wire; what a row of the table of commands fixes is no field. A mask has bit n for PCR n,
/// a timeout is a time of the TPM in milliseconds, and an expiration is in seconds.
#[derive(Drop)]
pub enum Command {
    /// Starts a policy session. Table "TPM2_StartAuthSession Command".
    StartAuthSession {
        tpm_key: u32,
        bind: u32,
        nonce: Digest32,
    },
    /// Saves a session. Table "TPM2_ContextSave Command".
    ContextSave {
        session: u32,
    },
    /// Loads a saved session by its context. Table "TPM2_ContextLoad Command".
    ContextLoad {
        sequence: u64,
        session: u32,
        digest: Digest32,
    },
    /// Ends a session. Table "TPM2_FlushContext Command".
    FlushContext {
        session: u32,
    },
    /// Makes a session as it was when it started. Table "TPM2_PolicyRestart Command".
    PolicyRestart {
        session: u32,
    },
    /// Asks for the policyDigest of a session. Table "TPM2_PolicyGetDigest Command".
    PolicyGetDigest {
        session: u32,
    },
    /// Extends a PCR by a SHA-256 digest. Table "TPM2_PCR_Extend Command".
    PcrExtend {
        pcr: u32,
        auth: AuthArea,
        digest: Digest32,
    },
    /// Asks for the values of PCRs. Table "TPM2_PCR_Read Command".
    PcrRead {
        mask: u32,
    },
    /// Verifies the HMAC of a digest by a key. Table "TPM2_VerifySignature Command".
    VerifySignature {
        key: u32,
        digest: Digest32,
        signature: Digest32,
    },
    /// Asks for the secret of a sealed object. Table "TPM2_Unseal Command".
    Unseal {
        object: u32,
        auth: AuthArea,
    },
    /// Asks for the HMAC of bytes by a key. Table "TPM2_HMAC Command".
    Hmac {
        key: u32,
        auth: AuthArea,
        buffer: Blob,
        hash: u16,
    },
    /// Reads bytes of an index. Table "TPM2_NV_Read Command".
    NvRead {
        authority: u32,
        index: u32,
        auth: AuthArea,
        size: u16,
        offset: u16,
    },
    /// Writes bytes of an index. Table "TPM2_NV_Write Command".
    NvWrite {
        authority: u32,
        index: u32,
        auth: AuthArea,
        bytes: Blob,
        offset: u16,
    },
    /// Increments a counter. Table "TPM2_NV_Increment Command".
    NvIncrement {
        authority: u32,
        index: u32,
        auth: AuthArea,
    },
    /// Duplicates an object under another parent. Table "TPM2_Duplicate Command".
    Duplicate {
        object: u32,
        parent: u32,
        auth: AuthArea,
    },
    /// Compares bytes of an index. Table "TPM2_PolicyNV Command".
    PolicyNv {
        authority: u32,
        index: u32,
        session: u32,
        auth: AuthArea,
        operand: Blob,
        offset: u16,
        operation: Compare,
    },
    /// Binds the policy to parameters. Table "TPM2_PolicyCpHash Command".
    PolicyCpHash {
        session: u32,
        digest: Digest32,
    },
    /// Binds the policy to the Names of entities. Table "TPM2_PolicyNameHash Command".
    PolicyNameHash {
        session: u32,
        digest: Digest32,
    },
    /// Wants the authorization value of the entity, in an HMAC. Table "TPM2_PolicyAuthValue Command".
    PolicyAuthValue {
        session: u32,
    },
    /// Wants the authorization value of the entity, as a password. Table "TPM2_PolicyPassword Command".
    PolicyPassword {
        session: u32,
    },
    /// Wants physical presence. Table "TPM2_PolicyPhysicalPresence Command".
    PolicyPhysicalPresence {
        session: u32,
    },
    /// Binds the policy to a command. Table "TPM2_PolicyCommandCode Command".
    PolicyCommandCode {
        session: u32,
        code: u32,
    },
    /// Compares bytes of the time. Table "TPM2_PolicyCounterTimer Command".
    PolicyCounterTimer {
        session: u32,
        operand: Blob,
        offset: u16,
        operation: Compare,
    },
    /// Binds the policy to localities. Table "TPM2_PolicyLocality Command".
    PolicyLocality {
        session: u32,
        locality: u8,
    },
    /// Binds the policy to values of PCRs. Table "TPM2_PolicyPCR Command".
    PolicyPcr {
        session: u32,
        given: Option<Digest32>,
        mask: u32,
    },
    /// Binds the policy to a duplication. Table "TPM2_PolicyDuplicationSelect Command".
    PolicyDuplicationSelect {
        session: u32,
        object: Name,
        parent: Name,
        include: bool,
    },
    /// Binds the policy to an index that is written or not. Table "TPM2_PolicyNvWritten Command".
    PolicyNvWritten {
        session: u32,
        written: bool,
    },
    /// Asserts a signature of a key. Table "TPM2_PolicySigned Command".
    PolicySigned {
        key: u32,
        session: u32,
        nonce: Blob,
        cp_hash: Option<Digest32>,
        policy_ref: Blob,
        expiration: i32,
        signature: Digest32,
    },
    /// Asserts the authorization of an entity. Table "TPM2_PolicySecret Command".
    PolicySecret {
        entity: u32,
        session: u32,
        auth: AuthArea,
        nonce: Blob,
        cp_hash: Option<Digest32>,
        policy_ref: Blob,
        expiration: i32,
    },
    /// Asserts what a ticket stands for. Table "TPM2_PolicyTicket Command".
    PolicyTicket {
        session: u32,
        timeout: u64,
        cp_hash: Option<Digest32>,
        policy_ref: Blob,
        key: Name,
        ticket: Ticket,
    },
    /// Puts a signing key's approval in place of the policy that it approves. Table "TPM2_PolicyAuthorize Command".
    PolicyAuthorize {
        session: u32,
        approved: Digest32,
        policy_ref: Blob,
        key: Name,
        ticket: Ticket,
    },
    /// Goes from the digest of one of several branches to that of the OR. Table "TPM2_PolicyOR Command".
    PolicyOr {
        session: u32,
        digests: Digests,
    },
    /// Puts an index in place of the policy whose digest it has. Table "TPM2_PolicyAuthorizeNV Command".
    PolicyAuthorizeNv {
        authority: u32,
        index: u32,
        session: u32,
        auth: AuthArea,
    },
}
