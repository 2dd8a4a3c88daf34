//! The hashes that the authorization of the goal's command is over; none takes memory.

ghost use Rattle.std.specs.Prelude.{◌≡◌, ℕ, List, ◌++◌};
ghost use Rattle.tpol_hash.specs.Messages.{Holds};
ghost use Rattle.tpol_goal.specs.Commands.{goal_cp_hash, goal_name_hash, parameters_of_goal};
ghost use Rattle.tpol_goal.specs.Goals.{handles_of_goal};
ghost use Rattle.tpol_wire.specs.Hashes.{joined_names};

use crate::{Goal, Naming};
use tpol_base::Digest32;
use tpol_base::constants::{TPM_ALG_NULL, TPM_ALG_SHA256};
use tpol_hash::Hasher;

impl Goal {
    /// The cpHash of the goal's command: the hash of its code, the Names of its handles and its parameters
    /// (TPM 2.0 Part 1, "cpHash").
    pub fn cp_hash<N: Naming>(&self, names: &N) -> Digest32
        ensures hash { result ≡ goal_cp_hash (N.naming names.now) self.now }
    {
        let mut hasher = Hasher::new();
        hasher.put(&self.code().number().to_be_bytes());
        put_names(self, names, &mut hasher);
        put_parameters(self, &mut hasher);
        hasher.done()
    }

    /// The nameHash of the goal's command: the hash of the Names of its handles (TPM 2.0 Part 3,
    /// TPM2_PolicyNameHash).
    pub fn name_hash<N: Naming>(&self, names: &N) -> Digest32
        ensures hash { result ≡ goal_name_hash (N.naming names.now) self.now }
    {
        let mut hasher = Hasher::new();
        put_names(self, names, &mut hasher);
        hasher.done()
    }
}

// Adds the Names of the handles of the goal's command, in order.
#[tactic(auto, unfolding(tpol_wire::specs::Hashes::joined_names))]
fn put_names<N: Naming>(goal: &Goal, names: &N, hasher: &mut Hasher)
    ensures { (m : List ℕ) → Holds hasher.old m
        → Holds hasher.new (m ++ joined_names (N.naming names.now) (handles_of_goal goal.now)) }
{
    hasher.put_name(&names.name_of(goal.entity()));
    if let Some(second) = goal.second_handle() {
        hasher.put_name(&names.name_of(second));
    }
}

// Adds the parameters of the goal's command (TPM 2.0 Part 3, under its name).
fn put_parameters(goal: &Goal, hasher: &mut Hasher)
    ensures { (m : List ℕ) → Holds hasher.old m
        → Holds hasher.new (m ++ parameters_of_goal goal.now) }
{
    match goal {
        Goal::Unseal { .. } | Goal::NvIncrement { .. } => {}
        Goal::Hmac { buffer, .. } => {
            hasher.put_sized(buffer.as_slice());
            hasher.put(&TPM_ALG_SHA256.to_be_bytes());
        }
        Goal::NvRead { size, offset, .. } => {
            hasher.put(&size.to_be_bytes());
            hasher.put(&offset.to_be_bytes());
        }
        Goal::NvWrite { offset, bytes, .. } => {
            hasher.put_sized(bytes.as_slice());
            hasher.put(&offset.to_be_bytes());
        }
        Goal::Duplicate { .. } => {
            hasher.put(&0u16.to_be_bytes());
            hasher.put(&TPM_ALG_NULL.to_be_bytes());
        }
    }
}
