//! What a run is to do.

ghost use Rattle.std.specs.Prelude.{◌≡◌, ◌&&◌, not};
ghost use Rattle.std.specs.List.{list_all};
ghost use Rattle.tpol_driver.specs.Lent.{plan_of};
ghost use Rattle.tpol_driver.specs.Plans.{is_complete, is_known_move};

use crate::path_plan::PathPlan;
use crate::tickets::Tickets;
use tpol_base::Digest32;
use tpol_goal::{Goal, Grants, entity_of_name, index_of_name, object_of_name};
use tpol_name::{DirEntry, Directory};
use tpol_tree::{Assertion, Move, Path};

/// What a run is to do: the path whose moves it sends, the command that it wants after them, the values and
/// keys that it may use, the directory by which it finds the handles of Names, the seed of its nonces, and the
/// tickets that it shows in place of the assertions that they stand for.
#[derive(Drop)]
pub struct Plan {
    pub path: Path,
    pub goal: Goal,
    pub grants: Grants,
    pub directory: Directory,
    pub nonce_seed: Digest32,
    pub tickets: Tickets,
}

impl Plan {
    /// Whether a run can make each command of its path: the path is not outside, each Name stands for an entity of the
    /// kind that its command takes, and each key that signs is granted. It looks at no ticket, so it is `false` too
    /// where one stands for a signature whose key is not granted.
    pub fn complete(&self) -> bool
        ensures complete { result ≡ is_complete self.now }
    {
        is_complete_along(self.directory.as_slice(), &self.grants, &self.path)
    }

    // The plan, lent.
    pub(crate) fn lent(&self) -> PathPlan<'_>
        ensures { plan_of result ≡ self.now }
    {
        PathPlan {
            path: &self.path,
            goal: &self.goal,
            grants: &self.grants,
            directory: &self.directory,
            nonce_seed: &self.nonce_seed,
            tickets: self.tickets.as_slice(),
        }
    }
}

// Whether each command of a path can be made with this directory and these grants.
pub(crate) fn is_complete_along(directory: &[DirEntry], grants: &Grants, path: &Path) -> bool
    ensures { result ≡ (not path.now.outside && list_all
        (is_known_move directory.now grants.now) path.now.moves) }
{
    !path.outside && are_known(directory, grants, path.moves.as_slice())
}

fn are_known(directory: &[DirEntry], grants: &Grants, moves: &[Move]) -> bool
    ensures { result ≡ list_all (is_known_move directory.now grants.now) moves.now }
{
    moves
        .iter()
        .all(|act| is_known_move(directory, grants, act))
}

// Whether each Name of a move is in the directory with the kind that its command takes, and each key that it
// signs with is granted.
fn is_known_move(directory: &[DirEntry], grants: &Grants, act: &Move) -> bool
    ensures { result ≡ is_known_move directory.now grants.now act.now }
{
    match act {
        Move::Assert(Assertion::Secret { entity, .. }) => entity_of_name(
            directory, entity,
        ).is_some(),
        Move::Assert(Assertion::Signed { key, .. }) => match object_of_name(directory, key) {
            Some(entry) => grants.key(entry.handle).is_some(),
            None => false,
        },
        Move::Assert(Assertion::Nv { index, .. }) | Move::ApproveNv { index, .. } => index_of_name(
            directory, index,
        ).is_some(),
        Move::Approve { key, .. } => object_of_name(directory, key).is_some(),
        _ => true,
    }
}
