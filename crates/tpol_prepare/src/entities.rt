ghost use Rattle.std.specs.Option.{option_copied, option_map};
ghost use Rattle.std.specs.Prelude.{◌≡◌, All, IfOk, OnOk, find, map, take};
ghost use Rattle.tpol_name.specs.Setups.{IsSetup};
ghost use Rattle.tpol_store.specs.Stores.{IsReadable, policies_of, stored};
ghost use Rattle.tpol_prepare.specs.Entities.{IsReadyEntity, compiled_step, entities_from, entity_step, erased_compiled, index_with_policy, no_entity, object_with_policy, setup_with_policy, sight_before, with_entity};
ghost use Rattle.tpol_prepare.specs.Scenario.{entity_document, is_document};
ghost use Rattle.tpol_steps.specs.Filled.{IsReady};
ghost use Rattle.tpol_steps.specs.Steps.{Answers, IsInside};
ghost use Rattle.tpol_tree.specs.ClosedErased.{erased};

use crate::references::policy_at;
use std::alloc::Global;
use tpol_base::{Blob, Digest32, NoMemory, Sequence};
use tpol_name::{
    EntityLists, IndexEntry, Indices, ObjectEntry, Objects, Setup, Sight, opening_sight_of,
};
use tpol_scene::EntityPolicy;
use tpol_steps::{CompiledDocument, FilledDocument, Halt, fill_document};
use tpol_store::Store;
use tpol_tree::Closed;

/// An entity whose authorization policy is named, by its handle, and that policy, filled.
#[derive(Drop)]
pub struct CompiledEntity {
    pub handle: u32,
    pub document: CompiledDocument,
}

/// What a machine starts from, where the entities whose policies are compiled have the digests of these as
/// their authPolicies, and these entities in the order of the scene.
#[derive(Drop)]
pub struct CompiledSetup {
    pub setup: Setup,
    pub entities: Sequence<CompiledEntity>,
}

/// Compiles the policies of entities in order, each with what the entities before it show.
///
/// `Refused` tells what is wrong with the first one that is not filled: the store does not have it, or a place in
/// it has no value. `NoMemory` comes where memory ran out, and nothing else comes.
#[tactic(auto, unfolding(crate::specs::Entities::entities_from))]
pub fn compile_entities(
    alloc: Global,
    store: &Store,
    setup: Setup,
    policies: &[EntityPolicy],
) -> Result<CompiledSetup, Halt>
    ensures answer { Answers erased_compiled
        (entities_from (policies_of store.now) (no_entity setup) policies.now) result }
    ensures inside { IsInside result }
    ensures ready { All IsReadable (stored store.now)
        → IfOk result (λ compiled. All IsReadyEntity compiled.entities) }
    ensures setup { IsSetup setup → IfOk result (λ compiled. IsSetup compiled.setup) }
{
    let mut compiled = CompiledSetup {
        setup,
        entities: Sequence::new(alloc),
    };
    for policy in policies {
        if let Err(halt) = compile_entity(alloc, store, &mut compiled, policy) {
            drop(compiled);
            return Err(halt);
        }
    }
    Ok(compiled)
}

// Compiles the policy of an entity, with what the entities before it show.
#[tactic(auto, unfolding(crate::specs::Entities::compiled_step))]
fn compile_entity(
    alloc: Global,
    store: &Store,
    compiled: &mut CompiledSetup,
    policy: &EntityPolicy,
) -> Result<(), Halt>
    ensures answer { Answers (λ _. erased_compiled compiled.new)
        (compiled_step (policies_of store.now) (erased_compiled compiled.old) policy.now) result }
    ensures inside { IsInside result }
    ensures ready { All IsReadable (stored store.now) → All IsReadyEntity compiled.old.entities
        → OnOk result (All IsReadyEntity compiled.new.entities) }
    ensures setup { IsSetup compiled.old.setup → OnOk result (IsSetup compiled.new.setup) }
{
    let closed = entity_policy(alloc, store, &compiled.setup, policy)?;
    add_entity(alloc, compiled, policy, closed)?;
    Ok(())
}

// The entity's policy, filled with what the entities before it show.
#[tactic(auto, unfolding(crate::specs::Entities::entity_step))]
fn entity_policy(
    alloc: Global,
    store: &Store,
    setup: &Setup,
    policy: &EntityPolicy,
) -> Result<Closed, Halt>
    ensures answer { Answers erased
        (entity_step (policies_of store.now) setup.now policy.now) result }
    ensures inside { IsInside result }
    ensures ready { All IsReadable (stored store.now) → IfOk result IsReady }
{
    let written = policy_at(alloc, store, &policy.name, &policy.place)?;
    let sight = sight_before(alloc, policy, setup)?;
    let closed = fill_document(alloc, Some(&policy.name), written, Some(&sight));
    drop(sight);
    closed
}

// What a machine with the entities before this one shows when it starts.
fn sight_before(alloc: Global, policy: &EntityPolicy, setup: &Setup) -> Result<Sight, NoMemory>
    ensures { IfOk result (λ sight. sight ≡ sight_before policy.now setup.now) }
{
    let entities = entities_before(alloc, policy, setup)?;
    opening_sight_of(alloc, setup, entities)
}

// The entities before this one.
fn entities_before(
    alloc: Global,
    policy: &EntityPolicy,
    setup: &Setup,
) -> Result<EntityLists, NoMemory>
    ensures objects { IfOk result (λ entities.
        entities.objects ≡ take policy.now.objects_before setup.now.objects) }
    ensures indices { IfOk result (λ entities.
        entities.indices ≡ take policy.now.indices_before setup.now.indices) }
{
    Ok(EntityLists {
        objects: first_objects(alloc, setup.objects.as_slice(), policy.objects_before)?,
        indices: first_indices(alloc, setup.indices.as_slice(), policy.indices_before)?,
    })
}

fn first_objects(alloc: Global, objects: &[ObjectEntry], count: usize) -> Result<Objects, NoMemory>
    ensures { IfOk result (λ first. first ≡ take count objects.now) }
{
    let mut first = Sequence::new(alloc);
    first.extend_with_clones(&objects[..objects.len().min(count)])?;
    Ok(first)
}

fn first_indices(alloc: Global, indices: &[IndexEntry], count: usize) -> Result<Indices, NoMemory>
    ensures { IfOk result (λ first. first ≡ take count indices.now) }
{
    let mut first = Sequence::new(alloc);
    first.extend_with_clones(&indices[..indices.len().min(count)])?;
    Ok(first)
}

// Gives the entity its policy's digest as its authPolicy, and adds the entity.
fn add_entity(
    alloc: Global,
    compiled: &mut CompiledSetup,
    policy: &EntityPolicy,
    closed: Closed,
) -> Result<(), NoMemory>
    ensures entity { OnOk result (erased_compiled compiled.new
        ≡ with_entity (erased_compiled compiled.old) policy.now (erased closed)) }
    ensures ready { IsReady closed → All IsReadyEntity compiled.old.entities
        → OnOk result (All IsReadyEntity compiled.new.entities) }
    ensures setup { IsSetup compiled.old.setup → OnOk result (IsSetup compiled.new.setup) }
{
    let name = policy.name.try_clone(alloc)?;
    let filled = FilledDocument { name, closed };
    let document = compile_document(alloc, compiled.entities.as_slice(), filled)?;
    let handle = policy.handle;
    set_policy(alloc, &mut compiled.setup, handle, &document.digest())?;
    compiled.entities.push(CompiledEntity { handle, document })?;
    Ok(())
}

/// Computes the digests of a document, or takes them from an entity's policy of its name, where that is the same.
pub fn compile_document(
    alloc: Global,
    entities: &[CompiledEntity],
    filled: FilledDocument,
) -> Result<CompiledDocument, NoMemory>
    ensures { IfOk result (λ document. document ≡ filled) }
{
    let known = document_called(entities, filled.name.as_str());
    CompiledDocument::new_beside(alloc, filled, known)
}

// The first entity's policy of this name.
fn document_called<'a>(entities: &'a [CompiledEntity], name: &str) -> Option<&'a CompiledDocument>
    ensures { option_copied result
        ≡ option_map entity_document
        (find (λ entity. is_document name.now entity.document) entities.now) }
{
    let entity = entities
        .iter()
        .find(|entity| entity.document.filled().name.as_str() == name)?;
    Some(&entity.document)
}

// Gives the entity of this handle an authPolicy.
fn set_policy(
    alloc: Global,
    setup: &mut Setup,
    handle: u32,
    digest: &Digest32,
) -> Result<(), NoMemory>
    ensures { OnOk result (setup.new ≡ setup_with_policy handle digest.now setup.old) }
{
    set_among_objects(alloc, &mut setup.objects, handle, digest)?;
    set_among_indices(alloc, &mut setup.indices, handle, digest)
}

fn set_among_objects(
    alloc: Global,
    objects: &mut Objects,
    handle: u32,
    digest: &Digest32,
) -> Result<(), NoMemory>
    ensures { OnOk result (objects.new ≡ map (object_with_policy handle digest.now) objects.old) }
{
    for place in 0..objects.len() {
        if let Some(object) = objects.get_mut(place) {
            set_object(alloc, object, handle, digest)?;
        }
    }
    Ok(())
}

fn set_object(
    alloc: Global,
    object: &mut ObjectEntry,
    handle: u32,
    digest: &Digest32,
) -> Result<(), NoMemory>
    ensures { OnOk result (object.new ≡ object_with_policy handle digest.now object.old) }
{
    if object.handle == handle {
        object.public.auth_policy = Blob::from_slice(alloc, &digest.bytes)?;
    }
    Ok(())
}

fn set_among_indices(
    alloc: Global,
    indices: &mut Indices,
    handle: u32,
    digest: &Digest32,
) -> Result<(), NoMemory>
    ensures { OnOk result (indices.new ≡ map (index_with_policy handle digest.now) indices.old) }
{
    for place in 0..indices.len() {
        if let Some(index) = indices.get_mut(place) {
            set_index(alloc, index, handle, digest)?;
        }
    }
    Ok(())
}

fn set_index(
    alloc: Global,
    index: &mut IndexEntry,
    handle: u32,
    digest: &Digest32,
) -> Result<(), NoMemory>
    ensures { OnOk result (index.new ≡ index_with_policy handle digest.now index.old) }
{
    if index.public.index == handle {
        index.public.auth_policy = Blob::from_slice(alloc, &digest.bytes)?;
    }
    Ok(())
}
