//! A run by its number.

use crate::run::Run;

/// A run by its number. There is none any more once it is over.
#[derive(Drop)]
pub struct Numbered {
    pub number: u16,
    pub run: Option<Run>,
}
