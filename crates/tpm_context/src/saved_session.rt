use tpm_session::Session;

/// A session that is saved, with the sequence number of its context.
#[derive(Drop)]
pub struct SavedSession {
    pub sequence: u64,
    pub session: Session,
}
