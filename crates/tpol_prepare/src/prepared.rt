ghost use Rattle.std.specs.Prelude.{◌≡◌, All, IfOk};
ghost use Rattle.tpol_name.specs.Setups.{IsSetup};
ghost use Rattle.tpol_store.specs.Stores.{IsReadable, policies_of, stored};
ghost use Rattle.tpol_prepare.specs.Entities.{IsReadyEntity, erased_compiled};
ghost use Rattle.tpol_prepare.specs.Prepared.{begun_step, erased_prepared, filled_scene_step, opening_step, prepared_step};
ghost use Rattle.tpol_steps.specs.Filled.{IsReadyDocument};
ghost use Rattle.tpol_steps.specs.Steps.{Answers, IsInside};

use crate::documents::fill_references;
use crate::entities::{CompiledEntity, CompiledSetup, compile_entities};
use crate::references::{Reference, check_entities, check_references, script_references};
use std::alloc::Global;
use tpol_base::{NoMemory, Sequence};
use tpol_name::{Setup, Sight, opening_sight};
use tpol_scene::Scene;
use tpol_steps::{CompiledDocument, Halt};
use tpol_store::Store;

/// A scene whose policies are filled: what its machine starts from, what the machine shows then, the entities
/// whose policies are named, and the documents that the script begins.
#[derive(Drop)]
pub struct PreparedScene {
    pub setup: Setup,
    pub sight: Sight,
    pub entities: Sequence<CompiledEntity>,
    pub begun: Sequence<CompiledDocument>,
}

/// Looks up all policies that a scene names, and fills them: those of its entities, and then those that its
/// script begins.
///
/// `Refused` tells the first name that no policy of the store has, or else the first place of these policies that
/// has no value; `NoMemory` comes where memory ran out, and nothing else comes.
#[tactic(auto, unfolding(crate::specs::Prepared::prepared_step))]
pub fn prepare(alloc: Global, store: &Store, scene: &Scene) -> Result<PreparedScene, Halt>
    ensures answer { Answers erased_prepared
        (prepared_step (policies_of store.now) scene.now) result }
    ensures inside { IsInside result }
    ensures entities { All IsReadable (stored store.now)
        → IfOk result (λ prepared. All IsReadyEntity prepared.entities) }
    ensures begun { All IsReadable (stored store.now)
        → IfOk result (λ prepared. All IsReadyDocument prepared.begun) }
    ensures setup { IsSetup scene.now.setup → IfOk result (λ prepared. IsSetup prepared.setup) }
{
    let references = script_references(alloc, scene)?;
    check_entities(alloc, store, scene.policies.as_slice())?;
    check_references(alloc, store, references.as_slice())?;
    fill_scene(alloc, store, scene, references.as_slice())
}

// Fills the policies that the scene names, all of which are there.
#[tactic(auto, unfolding(crate::specs::Prepared::filled_scene_step))]
fn fill_scene(
    alloc: Global,
    store: &Store,
    scene: &Scene,
    references: &[Reference],
) -> Result<PreparedScene, Halt>
    ensures answer { Answers erased_prepared
        (filled_scene_step (policies_of store.now) scene.now references.now) result }
    ensures inside { IsInside result }
    ensures entities { All IsReadable (stored store.now)
        → IfOk result (λ prepared. All IsReadyEntity prepared.entities) }
    ensures begun { All IsReadable (stored store.now)
        → IfOk result (λ prepared. All IsReadyDocument prepared.begun) }
    ensures setup { IsSetup scene.now.setup → IfOk result (λ prepared. IsSetup prepared.setup) }
{
    let setup = scene.setup.try_clone()?;
    let compiled = compile_entities(alloc, store, setup, scene.policies.as_slice())?;
    fill_begun(alloc, store, compiled, references)
}

// Fills the policies that the script begins.
#[tactic(auto, unfolding(crate::specs::Prepared::begun_step))]
fn fill_begun(
    alloc: Global,
    store: &Store,
    compiled: CompiledSetup,
    references: &[Reference],
) -> Result<PreparedScene, Halt>
    ensures answer { Answers erased_prepared
        (begun_step (policies_of store.now) (erased_compiled compiled) references.now) result }
    ensures inside { IsInside result }
    ensures entities { All IsReadyEntity compiled.entities
        → IfOk result (λ prepared. All IsReadyEntity prepared.entities) }
    ensures begun { All IsReadable (stored store.now)
        → IfOk result (λ prepared. All IsReadyDocument prepared.begun) }
    ensures setup { IfOk result (λ prepared. prepared.setup ≡ compiled.setup) }
{
    let sight = match opening_sight(alloc, &compiled.setup) {
        Ok(sight) => sight,
        Err(NoMemory) => {
            drop(compiled);
            return Err(Halt::NoMemory);
        }
    };
    let entities = compiled.entities.as_slice();
    match fill_references(alloc, store, Some(&sight), entities, references) {
        Ok(begun) => {
            let CompiledSetup { setup, entities } = compiled;
            Ok(PreparedScene {
                setup,
                sight,
                entities,
                begun,
            })
        }
        Err(halt) => {
            drop(sight);
            drop(compiled);
            Err(halt)
        }
    }
}

/// What the machine of a scene shows when it starts, if there is a scene.
///
/// `Refused` tells the first name in the scene that no policy of the store has, or else the first place without a
/// value in the policies that it names; `NoMemory` comes where memory ran out, and nothing else comes.
#[tactic(auto, unfolding(crate::specs::Prepared::opening_step))]
pub fn opening_of(
    alloc: Global,
    store: &Store,
    scene: &Option<Scene>,
) -> Result<Option<Sight>, Halt>
    ensures answer { Answers (λ sight. sight)
        (opening_step (policies_of store.now) scene.now) result }
    ensures inside { IsInside result }
{
    match scene {
        None => Ok(None),
        Some(scene) => {
            let prepared = prepare(alloc, store, scene)?;
            let PreparedScene { setup, sight, .. } = prepared;
            drop(setup);
            Ok(Some(sight))
        }
    }
}
