//! What a run is to do along one path.

use crate::tickets::HeldTicket;
use tpol_base::Digest32;
use tpol_goal::{Goal, Grants};
use tpol_name::Directory;
use tpol_tree::Path;

/// What a run is to do along one path, lent from the plan of whichever driver.
#[derive(Clone, Copy)]
pub(crate) struct PathPlan<'a> {
    pub(crate) path: &'a Path,
    pub(crate) goal: &'a Goal,
    pub(crate) grants: &'a Grants,
    pub(crate) directory: &'a Directory,
    pub(crate) nonce_seed: &'a Digest32,
    pub(crate) tickets: &'a [HeldTicket],
}
