//! What rules read of a policy session.

use tpm_bindings::Bindings;
use tpol_base::Digest32;

/// A policy session as rules read it: the time in milliseconds at its start, its nonceTPM, its policyDigest,
/// what its facts bind, and the PCR counter that its first PolicyPCR found. The machine makes it of a session;
/// who plans a way makes it of the commands so far.
#[derive(Clone, Copy)]
pub struct Standing {
    pub start: u64,
    pub nonce: Digest32,
    pub digest: Digest32,
    pub bindings: Bindings,
    pub counter: Option<u32>,
}
