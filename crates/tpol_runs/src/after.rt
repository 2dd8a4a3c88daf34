//! What a reply makes of a run.

use crate::ended::Ended;
use crate::run::Run;

/// What a reply makes of a run: it goes on, or it is over.
#[derive(Drop)]
pub enum After {
    Goes(Run),
    Ends(Ended),
}
