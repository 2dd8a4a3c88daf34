//! The state of a blind run that a reply leads to.

use crate::blind_again::BlindAgain;
use crate::blind_asserting::BlindAsserting;
use crate::blind_closing::BlindClosing;
use crate::blind_end::BlindEnd;
use crate::blind_ready::BlindReady;

/// The state of a blind run that a reply leads to.
#[derive(Drop)]
pub enum BlindNext {
    Asserting(BlindAsserting),
    Ready(BlindReady),
    Again(BlindAgain),
    Closing(BlindClosing),
    Over(BlindOver),
}

/// A blind run that is over.
#[derive(Drop)]
pub struct BlindOver {
    pub end: BlindEnd,
}
