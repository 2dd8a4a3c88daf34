use tpm_rules::Outcome;

/// What a journal keeps of an event, beside bytes.
#[derive(Clone, Copy)]
pub enum Entry {
    /// A command: the index of its bytes among the commands that the journal keeps, and that of its reply's bytes
    /// among the replies. Neighbours with the same bytes have the same index.
    Command {
        locality: u8,
        client: u32,
        outcome: Outcome,
        buffer: usize,
        reply: usize,
    },
    /// A change of the surroundings.
    Change(Change),
}

/// A change of the surroundings.
#[derive(Clone, Copy)]
pub enum Change {
    /// So many milliseconds passed.
    Time(u32),
    /// Physical presence was set or withdrawn.
    Presence(bool),
    /// A TPM Reset.
    Reset,
}
