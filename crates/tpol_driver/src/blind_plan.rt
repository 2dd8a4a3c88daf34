//! What a blind run is to do.

ghost use Rattle.std.specs.Prelude.{◌≡◌, ◌<◌, ◌≤◌, ◌^◌, length, position, slice_get};
ghost use Rattle.tpol_driver.specs.Blind.{first_complete, is_tried, plan_at, tried_from};
ghost use Rattle.tpol_driver.specs.Lent.{plan_of};

use crate::path_plan::PathPlan;
use crate::plan::is_complete_along;
use tpol_base::Digest32;
use tpol_goal::{Goal, Grants};
use tpol_name::Directory;
use tpol_tree::{Path, Paths};

/// What a run is to do that does not see the machine: the paths that it tries in order, the command that it wants
/// after the moves of one of them, the values and keys that it may use, the directory by which it finds the handles
/// of Names, and the seed of its nonces.
#[derive(Drop)]
pub struct BlindPlan {
    pub paths: Paths,
    pub goal: Goal,
    pub grants: Grants,
    pub directory: Directory,
    pub nonce_seed: Digest32,
}

impl BlindPlan {
    /// The position, from 1, of the first path each of whose commands can be made (`Plan::complete`); `None` exactly
    /// where there is none.
    pub fn first(&self) -> Option<u32>
        requires few { length self.now.paths < 2 ^ 32 }
        ensures first { result ≡ first_complete self.now }
    {
        match self.tried_from(0) {
            Some(place) => Some(place as u32 + 1),
            None => None,
        }
    }

    // The place of the first such path from this place on, from 0.
    pub(crate) fn tried_from(&self, place: usize) -> Option<usize>
        requires { place ≤ length self.now.paths }
        ensures { result ≡ tried_from self.now place }
    {
        let behind = &self.paths.as_slice()[place..];
        match first_along(self, behind) {
            Some(index) => Some(place + index),
            None => None,
        }
    }

    // The plan of the path at a place, from 0.
    pub(crate) fn along(&self, place: usize) -> PathPlan<'_>
        requires { place < length self.now.paths }
        ensures { plan_of result ≡ plan_at self.now place }
    {
        PathPlan {
            path: path_at(self, place),
            goal: &self.goal,
            grants: &self.grants,
            directory: &self.directory,
            nonce_seed: &self.nonce_seed,
            tickets: &[],
        }
    }
}

// The path at a place, from 0.
fn path_at(plan: &BlindPlan, place: usize) -> &Path
    requires { place < length plan.now.paths }
    ensures { slice_get plan.now.paths place ≡ Some result.now }
{
    &plan.paths.as_slice()[place]
}

// The index of the first of these paths each of whose commands can be made.
fn first_along(plan: &BlindPlan, paths: &[Path]) -> Option<usize>
    ensures { result ≡ position (is_tried plan.now) paths.now }
{
    let directory = plan.directory.as_slice();
    paths
        .iter()
        .position(|path| is_complete_along(directory, &plan.grants, path))
}
