//! Documents by name.

use crate::{Blob, Text};

/// A document of a shelf: its name and its bytes.
#[derive(Drop)]
pub struct Document {
    pub name: Text,
    pub bytes: Blob,
}
