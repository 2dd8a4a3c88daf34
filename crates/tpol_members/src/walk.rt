//! How far a document has been read.

use tpol_json::Notes;

/// How far a document has been read.
#[derive(Drop)]
pub struct Walk {
    /// The places of unknown members so far.
    pub notes: Notes,
    /// How many elements may still come.
    pub left: u32,
}
