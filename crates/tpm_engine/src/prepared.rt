use crate::Success;
use tpm_rules::Outcome;
use tpol_base::Blob;

/// The response to a command buffer, before it has changed anything: the reply's bytes, what becomes of the command,
/// and, where it succeeds, what is to be carried out.
#[derive(Drop)]
pub struct Prepared {
    pub reply: Blob,
    pub outcome: Outcome,
    pub success: Option<Success>,
}
