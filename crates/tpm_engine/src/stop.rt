use tpm_rules::Outcome;

/// Why a command does not succeed: what becomes of it, and the response code of its reply.
#[derive(Clone, Copy)]
pub struct Stop {
    pub outcome: Outcome,
    pub code: u32,
}
