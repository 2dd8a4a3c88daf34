//! What a machine starts from.

ghost use Rattle.std.specs.Prelude.{◌≡◌, IfOk};

use crate::{Indices, Objects};
use tpol_base::{Blob, Digest32, Digests, NoMemory};

/// What a machine starts from: the seed of its nonces, the authorization values of its hierarchies, the 24
/// values of its PCRs with the PCR update counter, its entities, its time in milliseconds and counters of
/// resets and restarts with the `safe` flag (TPM 2.0 Part 2, TPMS_CLOCK_INFO), and physical presence.
#[derive(Drop)]
pub struct Setup {
    pub seed: Digest32,
    pub owner: Blob,
    pub endorsement: Blob,
    pub lockout: Blob,
    pub pcrs: Digests,
    pub pcr_counter: u32,
    pub objects: Objects,
    pub indices: Indices,
    pub time: u64,
    pub reset_count: u32,
    pub restart_count: u32,
    pub safe: bool,
    pub presence: bool,
}

impl Setup {
    /// A copy.
    pub fn try_clone(&self) -> Result<Setup, NoMemory>
        ensures copy { IfOk result (λ copy. copy ≡ self.now) }
    {
        let AuthsAndPcrs {
            owner,
            endorsement,
            lockout,
            pcrs,
        } = AuthsAndPcrs::of(self)?;
        let EntityLists { objects, indices } = EntityLists::of(self)?;
        Ok(Setup {
            seed: self.seed,
            owner,
            endorsement,
            lockout,
            pcrs,
            pcr_counter: self.pcr_counter,
            objects,
            indices,
            time: self.time,
            reset_count: self.reset_count,
            restart_count: self.restart_count,
            safe: self.safe,
            presence: self.presence,
        })
    }
}

/// The authorization values of the hierarchies and the values of the PCRs.
#[derive(Drop)]
pub struct AuthsAndPcrs {
    pub owner: Blob,
    pub endorsement: Blob,
    pub lockout: Blob,
    pub pcrs: Digests,
}

impl AuthsAndPcrs {
    /// Copies of those of this setup.
    pub fn of(setup: &Setup) -> Result<AuthsAndPcrs, NoMemory>
        ensures owner { IfOk result (λ values. values.owner ≡ setup.now.owner) }
        ensures endorsement { IfOk result (λ values. values.endorsement ≡ setup.now.endorsement) }
        ensures lockout { IfOk result (λ values. values.lockout ≡ setup.now.lockout) }
        ensures pcrs { IfOk result (λ values. values.pcrs ≡ setup.now.pcrs) }
    {
        Ok(AuthsAndPcrs {
            owner: setup.owner.clone()?,
            endorsement: setup.endorsement.clone()?,
            lockout: setup.lockout.clone()?,
            pcrs: setup.pcrs.clone()?,
        })
    }
}

/// A list of objects and one of indices.
#[derive(Drop)]
pub struct EntityLists {
    pub objects: Objects,
    pub indices: Indices,
}

impl EntityLists {
    /// Copies of those of this setup.
    pub fn of(setup: &Setup) -> Result<EntityLists, NoMemory>
        ensures objects { IfOk result (λ entities. entities.objects ≡ setup.now.objects) }
        ensures indices { IfOk result (λ entities. entities.indices ≡ setup.now.indices) }
    {
        Ok(EntityLists {
            objects: setup.objects.clone()?,
            indices: setup.indices.clone()?,
        })
    }
}
