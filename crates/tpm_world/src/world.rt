//! The world of a machine.

ghost use Rattle.std.specs.Prelude.{◌≡◌, ◌+◌, ◌≤◌, ◌<◌, ◌^◌, ◌-◌, ◌↔◌, Some, None, length, option_map, map, IsErr, IsSome, IfOk, IfErr, IfSome, OnOk, OnErr};
ghost use Rattle.std.specs.Option.{option_copied};
ghost use Rattle.tpol_name.specs.Areas.{index_name, object_name, with_written};
ghost use Rattle.tpol_name.specs.Setups.{IsSetup, IsSight};
ghost use Rattle.tpm_nv.specs.Indices.{counter_rule, index_of, rule_of};
ghost use Rattle.tpm_nv.specs.Rules.{write_rule};
ghost use Rattle.tpm_rules.specs.EntityView.{entity_of};
ghost use Rattle.tpm_world.specs.Entities.{hierarchy_at};
ghost use Rattle.tpm_world.specs.Hashes as hashes;
ghost use Rattle.tpm_world.specs.NvIncrement as nv_increment;
ghost use Rattle.tpm_world.specs.NvWrite as nv_write;
ghost use Rattle.tpm_world.specs.Objects.{object_of};
ghost use Rattle.tpm_world.specs.PcrExtend as pcr_extend;
ghost use Rattle.tpm_world.specs.Surroundings as surroundings;
ghost use Rattle.tpm_world.specs.World.{clock_of, sight_of, world_of};

use crate::hashes::{nonce_of_event, proof_of};
use crate::objects::ObjectTable;
use std::alloc::Global;
use std::marker::Model;
use tpm_nv::NvTable;
use tpm_pcr::{Clock, PcrFull, Pcrs};
use tpm_rules::Entity;
use tpol_base::handle::{TPM_RH_ENDORSEMENT, TPM_RH_LOCKOUT, TPM_RH_OWNER};
use tpol_base::{Blob, Digest32, Digests, Name, NoMemory, Rc};
use tpol_name::{
    AuthsAndPcrs, IndexEntry, NamedIndices, NamedObjects, Names, ObjectEntry, Setup, Sight,
    names_of,
};

/// What a machine has beside its policy sessions: the seed, the hierarchies, objects, NV indices and PCRs, and
/// the surroundings; contracts see the values as they are now. The Names of objects and of indices, these as they
/// are once written, are hashed once, at the start.
#[derive(Drop)]
pub struct World {
    seed: Digest32,
    owner: Blob,
    endorsement: Blob,
    lockout: Blob,
    objects: ObjectTable,
    object_names: Names,
    indices: NvTable,
    index_names: Names,
    pcrs: Pcrs,
    time: u64,
    reset_count: u32,
    restart_count: u32,
    safe: bool,
    presence: bool,
}

impl Model for World {
    ghost use Rattle.tpm_world.specs.World.{WorldState};

    ghost Value = { WorldState };

    ghost use Rattle.tpm_world.specs.WorldView.{IsSound, state_of};

    ghost view = { state_of };

    ghost invariant = { IsSound };
}

impl World {
    /// The world of a machine that starts from this setup.
    pub fn new(alloc: Global, setup: &Setup) -> Result<World, NoMemory>
        requires setup { IsSetup setup.now }
        ensures world { IfOk result (λ world. world ≡ world_of setup.now) }
    {
        let values = AuthsAndPcrs::of(setup)?;
        match EntityTables::of(alloc, setup) {
            Ok(entities) => Ok(World {
                seed: setup.seed,
                owner: values.owner,
                endorsement: values.endorsement,
                lockout: values.lockout,
                objects: entities.objects,
                object_names: entities.object_names,
                indices: entities.indices,
                index_names: entities.index_names,
                pcrs: Pcrs::new(values.pcrs, setup.pcr_counter),
                time: setup.time,
                reset_count: setup.reset_count,
                restart_count: setup.restart_count,
                safe: setup.safe,
                presence: setup.presence,
            }),
            Err(NoMemory) => {
                drop(values);
                Err(NoMemory)
            }
        }
    }

    /// What the machine shows at this moment, where it can still start so many sessions.
    pub fn sight(&self, alloc: Global, free_sessions: u32) -> Result<Sight, NoMemory>
        ensures sight { IfOk result (λ sight. sight ≡ sight_of self.now free_sessions) }
        ensures condition { IfOk result IsSight }
    {
        let values = auths_and_pcrs(alloc, self)?;
        match NamedEntities::of(alloc, self) {
            Ok(entities) => Ok(Sight {
                objects: entities.objects,
                indices: entities.indices,
                owner: values.owner,
                endorsement: values.endorsement,
                lockout: values.lockout,
                pcrs: values.pcrs,
                pcr_counter: self.pcrs.counter(),
                time: self.time,
                reset_count: self.reset_count,
                restart_count: self.restart_count,
                safe: self.safe,
                presence: self.presence,
                free_sessions,
            }),
            Err(NoMemory) => {
                drop(values);
                Err(NoMemory)
            }
        }
    }

    // ---- what it has

    /// The proof, which is the key of all tickets.
    pub fn proof(&self) -> Digest32
        ensures proof { result ≡ hashes.proof_of self.now.seed }
    {
        proof_of(&self.seed)
    }

    /// The nonce that a session gets that is started or used at this event.
    pub fn nonce(&self, event: u32) -> Digest32
        ensures nonce { result ≡ hashes.nonce_of_event self.now.seed event }
    {
        nonce_of_event(&self.seed, event)
    }

    /// The time in milliseconds.
    pub fn time(&self) -> u64
        ensures time { result ≡ self.now.time }
        ensures early { result ≤ 2 ^ 63 }
    {
        self.time
    }

    /// The clock as PolicyCounterTimer compares it.
    pub fn clock(&self) -> Clock
        ensures clock { result ≡ clock_of self.now }
    {
        Clock {
            time: self.time,
            reset_count: self.reset_count,
            restart_count: self.restart_count,
            safe: self.safe,
        }
    }

    /// The reset count, which begins at the setup's and rises by one at each Reset up to 4,294,967,295.
    pub fn reset_count(&self) -> u32
        ensures count { result ≡ self.now.reset_count }
    {
        self.reset_count
    }

    /// Whether physical presence is on.
    pub fn presence(&self) -> bool
        ensures presence { result ≡ self.now.presence }
    {
        self.presence
    }

    /// The PCRs.
    pub fn pcrs(&self) -> &Pcrs
        ensures pcrs { result.now ≡ self.now.pcrs }
    {
        &self.pcrs
    }

    /// The NV indices.
    pub fn nv(&self) -> &NvTable
        ensures indices { result.now ≡ self.now.indices }
    {
        &self.indices
    }

    /// The object with this handle; `None` exactly where there is none.
    pub fn object(&self, handle: u32) -> Option<&ObjectEntry>
        ensures found { option_copied result ≡ object_of handle self.now.objects }
    {
        self.objects.find(handle)
    }

    // The Name of the object with this handle, as it was hashed at the start; `None` exactly where there is none.
    pub(crate) fn object_name_of(&self, handle: u32) -> Option<Name>
        ensures name { result ≡ option_map (λ object. object_name object.public)
            (object_of handle self.now.objects) }
    {
        let place = self.objects.place_of(handle)?;
        self.object_names.get(place).copied()
    }

    /// The index with this handle; `None` exactly where there is none. Its content has as many bytes as its
    /// public area says.
    pub fn index(&self, handle: u32) -> Option<&IndexEntry>
        ensures found { option_copied result ≡ index_of handle self.now.indices }
        ensures content { IfSome result (λ entry. length entry.now.content
            ≡ entry.now.public.size) }
    {
        self.indices.find(handle)
    }

    /// The hierarchy with this handle: the owner, the endorsement hierarchy or the lockout; `None` exactly for
    /// every other handle.
    pub fn hierarchy(&self, handle: u32) -> Option<Entity<'_>>
        ensures hierarchy { option_map entity_of result ≡ hierarchy_at self.now handle }
    {
        let auth = match handle {
            TPM_RH_OWNER => self.owner.as_slice(),
            TPM_RH_ENDORSEMENT => self.endorsement.as_slice(),
            TPM_RH_LOCKOUT => self.lockout.as_slice(),
            _ => return None,
        };
        Some(Entity::Hierarchy { handle, auth })
    }

    // ---- changes of the surroundings

    /// Lets so many milliseconds pass.
    pub fn advance(&mut self, ms: u32)
        requires early { self.old.time + ms ≤ 2 ^ 63 }
        ensures world { self.new ≡ surroundings.passed ms self.old }
    {
        self.time += ms as u64;
    }

    /// Turns physical presence on or off.
    pub fn set_presence(&mut self, on: bool)
        ensures world { self.new ≡ surroundings.with_presence on self.old }
    {
        self.presence = on;
    }

    /// Resets the machine (TPM 2.0 Part 1, "TPM Reset"): time begins at 0, the PCRs are zero and so is their
    /// counter, the count of resets rises by one unless it stands at its last value, and that of restarts is 0.
    pub fn reset(&mut self)
        ensures world { self.new ≡ surroundings.reset self.old }
    {
        self.pcrs.clear();
        self.time = 0;
        self.reset_count = self.reset_count.saturating_add(1);
        self.restart_count = 0;
    }

    // ---- changes by commands

    // Extends a PCR; answers `PcrFull`, and changes nothing, exactly where the counter stands at its last
    // value.
    pub(crate) fn extend(&mut self, pcr: u8, digest: &Digest32) -> Result<(), PcrFull>
        requires below { pcr < 24 }
        ensures full { IsErr result ↔ (self.old.pcrs.counter ≡ 2 ^ 32 - 1) }
        ensures ok { OnOk result (self.new ≡ pcr_extend.after pcr digest.now self.old) }
        ensures err { OnErr result (self.new ≡ self.old) }
    {
        self.pcrs.extend(pcr, digest)
    }

    // Writes bytes into an index; refuses, and then changes nothing, by the rules of writing.
    pub(crate) fn write(&mut self, index: u32, offset: u16, bytes: &[u8]) -> Result<(), Rc>
        requires there { IsSome (index_of index self.old.indices) }
        ensures ok { OnOk result (self.new ≡ nv_write.after index offset bytes.now self.old) }
        ensures refused { IfErr result
            (λ rc. rule_of (λ entry. write_rule entry offset (length bytes.now)) index
            self.old.indices ≡ Some rc.code) }
        ensures err { OnErr result (self.new ≡ self.old) }
    {
        self.indices.write(index, offset, bytes)
    }

    // Raises a counter by one; refuses, and then changes nothing, by the rules of counting.
    pub(crate) fn increment(&mut self, index: u32) -> Result<(), Rc>
        requires there { IsSome (index_of index self.old.indices) }
        ensures ok { OnOk result (self.new ≡ nv_increment.after index self.old) }
        ensures refused { IfErr result
            (λ rc. rule_of (counter_rule self.old.indices) index self.old.indices ≡ Some rc.code) }
        ensures err { OnErr result (self.new ≡ self.old) }
    {
        self.indices.increment(index)
    }
}

// The authorization values of the hierarchies and the values of the PCRs, as they are now.
fn auths_and_pcrs(alloc: Global, world: &World) -> Result<AuthsAndPcrs, NoMemory>
    ensures owner { IfOk result (λ values. values.owner ≡ world.now.owner) }
    ensures endorsement { IfOk result (λ values. values.endorsement ≡ world.now.endorsement) }
    ensures lockout { IfOk result (λ values. values.lockout ≡ world.now.lockout) }
    ensures pcrs { IfOk result (λ values. values.pcrs ≡ world.now.pcrs.values) }
{
    Ok(AuthsAndPcrs {
        owner: world.owner.clone()?,
        endorsement: world.endorsement.clone()?,
        lockout: world.lockout.clone()?,
        pcrs: Digests::from_slice(alloc, world.pcrs.values())?,
    })
}

// The objects and the indices of a setup by handle, and their Names.
#[derive(Drop)]
struct EntityTables {
    objects: ObjectTable,
    object_names: Names,
    indices: NvTable,
    index_names: Names,
}

impl EntityTables {
    fn of(alloc: Global, setup: &Setup) -> Result<EntityTables, NoMemory>
        requires setup { IsSetup setup.now }
        ensures objects { IfOk result (λ entities. entities.objects ≡ setup.now.objects) }
        ensures object_names { IfOk result (λ entities. entities.object_names
            ≡ map (λ object. object_name object.public) setup.now.objects) }
        ensures indices { IfOk result (λ entities. entities.indices ≡ setup.now.indices) }
        ensures index_names { IfOk result (λ entities. entities.index_names
            ≡ map (λ index. index_name (with_written index.public)) setup.now.indices) }
    {
        let object_names = names_of(alloc, setup.objects.as_slice())?;
        let index_names = names_of(alloc, setup.indices.as_slice())?;
        let objects = object_table(alloc, setup)?;
        let indices = nv_table(alloc, setup)?;
        Ok(EntityTables {
            objects,
            object_names,
            indices,
            index_names,
        })
    }
}

// The objects of a setup by handle.
fn object_table(alloc: Global, setup: &Setup) -> Result<ObjectTable, NoMemory>
    requires { IsSetup setup.now }
    ensures { IfOk result (λ objects. objects ≡ setup.now.objects) }
{
    ObjectTable::new(alloc, setup.objects.clone()?)
}

// Its indices by handle.
fn nv_table(alloc: Global, setup: &Setup) -> Result<NvTable, NoMemory>
    requires { IsSetup setup.now }
    ensures { IfOk result (λ indices. indices ≡ setup.now.indices) }
{
    NvTable::new(alloc, setup.indices.clone()?)
}

// The objects and the indices of a world, copied, with their Names.
#[derive(Drop)]
struct NamedEntities {
    objects: NamedObjects,
    indices: NamedIndices,
}

impl NamedEntities {
    fn of(alloc: Global, world: &World) -> Result<NamedEntities, NoMemory>
        ensures objects { IfOk result (λ named. named.objects ≡ world.now.objects) }
        ensures indices { IfOk result (λ named. named.indices ≡ world.now.indices) }
    {
        Ok(NamedEntities {
            objects: named_objects(alloc, &world.objects, &world.object_names)?,
            indices: named_indices(alloc, &world.indices, &world.index_names)?,
        })
    }
}

// A copy of the objects, with the Names that are theirs.
fn named_objects(
    alloc: Global,
    objects: &ObjectTable,
    names: &Names,
) -> Result<NamedObjects, NoMemory>
    requires { names.now ≡ map (λ object. object_name object.public) objects.now }
    ensures { IfOk result (λ named. named ≡ objects.now) }
{
    let copies = objects.to_objects(alloc)?;
    Ok(NamedObjects::with_names(copies, names.clone()?))
}

// A copy of the indices, with the Names that are theirs once they are written.
fn named_indices(alloc: Global, indices: &NvTable, names: &Names) -> Result<NamedIndices, NoMemory>
    requires { names.now ≡ map (λ index. index_name (with_written index.public)) indices.now }
    ensures { IfOk result (λ named. named ≡ indices.now) }
{
    let copies = indices.to_indices(alloc)?;
    Ok(NamedIndices::with_names(copies, names.clone()?))
}
