//! A command of a run.

use tpol_base::Blob;

/// A command of a run: the client that sends it, from which locality, and its bytes.
#[derive(Drop)]
pub struct Sent {
    pub client: u32,
    pub locality: u8,
    pub buffer: Blob,
}
