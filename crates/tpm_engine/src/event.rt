//! What happens to a machine.

use tpm_rules::Outcome;
use tpol_base::Blob;

/// What happens to a machine: one command buffer with its answer, or one change of the surroundings.
#[derive(Drop)]
pub enum Event {
    /// A client, at a locality from 0 to 4, sent the bytes of a command; the reply, and what became of the
    /// command.
    Command {
        client: u32,
        locality: u8,
        buffer: Blob,
        reply: Blob,
        outcome: Outcome,
    },
    /// So many milliseconds passed.
    Time(u32),
    /// Physical presence was set or withdrawn.
    Presence(bool),
    /// A TPM Reset: sessions end, PCRs and time begin anew, and the reset count rises unless it stands at its last
    /// value.
    Reset,
}

/// An event in a journal, with the journal's bytes; the variants are those of `Event`.
#[derive(Clone, Copy)]
pub enum EventView<'a> {
    Command {
        client: u32,
        locality: u8,
        buffer: &'a [u8],
        reply: &'a [u8],
        outcome: Outcome,
    },
    Time(u32),
    Presence(bool),
    Reset,
}
