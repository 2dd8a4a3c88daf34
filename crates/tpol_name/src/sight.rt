//! What a machine shows.

ghost use Rattle.std.specs.Prelude.{◌≡◌, IfOk};
ghost use Rattle.tpol_name.specs.Setups.{IsSetup, IsSight, first_sight, with_entities};

use crate::setup::AuthsAndPcrs;
use crate::{EntityLists, NamedIndices, NamedObjects, Setup};
use std::alloc::Global;
use tpol_base::{Blob, Digests, NoMemory};

/// The number of sessions that a machine can keep alive.
const SESSIONS: u32 = 64;

/// What a machine shows at one moment, its secret values too: the values of a `Setup` as they are now, but the seed of
/// its nonces, and how many sessions can still be started. The entities have their Names beside them.
#[derive(Drop)]
pub struct Sight {
    pub objects: NamedObjects,
    pub indices: NamedIndices,
    pub owner: Blob,
    pub endorsement: Blob,
    pub lockout: Blob,
    pub pcrs: Digests,
    pub pcr_counter: u32,
    pub time: u64,
    pub reset_count: u32,
    pub restart_count: u32,
    pub safe: bool,
    pub presence: bool,
    pub free_sessions: u32,
}

/// What a machine shows that just started from this setup.
pub fn opening_sight(alloc: Global, setup: &Setup) -> Result<Sight, NoMemory>
    ensures sight { IfOk result (λ sight. sight ≡ first_sight setup.now) }
    ensures condition { IsSetup setup.now → IfOk result IsSight }
{
    opening_sight_of(alloc, setup, EntityLists::of(setup)?)
}

/// What a machine shows that just started from this setup, with these entities in the place of its own.
pub fn opening_sight_of(
    alloc: Global,
    setup: &Setup,
    entities: EntityLists,
) -> Result<Sight, NoMemory>
    ensures sight { IfOk result (λ sight. sight
        ≡ first_sight (with_entities setup.now entities.objects entities.indices)) }
{
    let named = NamedEntities::new(alloc, entities)?;
    match AuthsAndPcrs::of(setup) {
        Ok(values) => Ok(Sight {
            objects: named.objects,
            indices: named.indices,
            owner: values.owner,
            endorsement: values.endorsement,
            lockout: values.lockout,
            pcrs: values.pcrs,
            pcr_counter: setup.pcr_counter,
            time: setup.time,
            reset_count: setup.reset_count,
            restart_count: setup.restart_count,
            safe: setup.safe,
            presence: setup.presence,
            free_sessions: SESSIONS,
        }),
        Err(NoMemory) => {
            drop(named);
            Err(NoMemory)
        }
    }
}

// Objects and indices with their Names.
#[derive(Drop)]
struct NamedEntities {
    objects: NamedObjects,
    indices: NamedIndices,
}

impl NamedEntities {
    fn new(alloc: Global, entities: EntityLists) -> Result<NamedEntities, NoMemory>
        ensures objects { IfOk result (λ named. named.objects ≡ entities.objects) }
        ensures indices { IfOk result (λ named. named.indices ≡ entities.indices) }
    {
        let EntityLists { objects, indices } = entities;
        Ok(NamedEntities {
            objects: NamedObjects::new(alloc, objects)?,
            indices: NamedIndices::new(alloc, indices)?,
        })
    }
}
