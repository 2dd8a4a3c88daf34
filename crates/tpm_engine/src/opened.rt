//! What a machine answers to a command buffer.

use tpm_rules::Outcome;
use tpol_base::Blob;
use tpol_tree::Facts;

/// An entity that a policy session opened: the handle that was authorized, and the facts of the session,
/// which its policyDigest is made of.
#[derive(Drop)]
pub struct Opened {
    pub entity: u32,
    pub facts: Facts,
}

/// A command that was executed: the number of its event, counted from 1, the reply's bytes, what became of
/// the command, and what a policy session opened, if one did.
#[derive(Drop)]
pub struct Executed {
    pub event: u32,
    pub reply: Blob,
    pub outcome: Outcome,
    pub opened: Option<Opened>,
}
