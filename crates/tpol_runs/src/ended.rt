//! How a run ended.

use tpol_base::Text;
use tpol_driver::{BlindEnd, End, Tickets};

/// How a run ended.
#[derive(Drop)]
pub enum Ended {
    /// A run on a path that was chosen, and the tickets that it has earned, in order, each with the reset count that
    /// the machine had when it was answered.
    Sighted { end: End, earned: Tickets },
    /// A blind run on the paths of the policy of this name.
    Blind(Text, BlindEnd),
}
