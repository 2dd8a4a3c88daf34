//! Scenes that can be carried out.

ghost use Rattle.std.specs.Option.{option_copied, option_map};
ghost use Rattle.std.specs.Prelude.{◌≡◌, ◌≤◌, Some, true, All, IfSome, IfOk, ⊤, find, length, map, reverse};
ghost use Rattle.tpol_name.specs.Directories.{directory_of};
ghost use Rattle.tpol_name.specs.Setups.{IsSetup};
ghost use Rattle.tpol_scene.specs.Conditions.{HasClients, HasScript};
ghost use Rattle.tpol_store.specs.Approvals.{HasApprovedBounds, approved_documents};
ghost use Rattle.tpol_store.specs.Stores.{IsReadable, policies_of, stored};
ghost use Rattle.tpol_fill.specs.Forms.{IsFilledApproval};
ghost use Rattle.tpol_prepare.specs.Entities.{IsReadyEntity, erased_entity};
ghost use Rattle.tpol_prepare.specs.Prepared.{erased_prepared};
ghost use Rattle.tpol_prepare.specs.declared.manner.Way.TheVariants.{Blind};
ghost use Rattle.tpol_prepare.specs.Scenario.{CanHappen, HasFewPaths, IsScenarioOf, IsSceneFor, IsWalkable, begun_limits, entity_document, erased_staged, grants_of, is_client, is_document, is_entity, limited_step, policy_of_entity, scenario_with, staged_from, staged_of, staged_step, staged_with};
ghost use Rattle.tpol_prepare.specs.Staged.{IsStaged};
ghost use Rattle.tpol_steps.specs.Filled.{IsReadyDocument, erased_filled};
ghost use Rattle.tpol_steps.specs.declared.filled.FilledDocument.{FilledDocument as OneDocument};
ghost use Rattle.tpol_digest.specs.Limits.{AreWithinLimits};
ghost use Rattle.tpol_digest.specs.Paths.{paths_of};
ghost use Rattle.tpol_steps.specs.Limits.{limits_step};
ghost use Rattle.tpol_steps.specs.Steps.{Answers, AsksShelf, IsInside};
ghost use Rattle.tpol_tree.specs.ClosedErased.{erased_document};

use crate::begins::check_begins;
use crate::entities::CompiledEntity;
use crate::manner::{Manner, Way};
use crate::prepared::{PreparedScene, prepare};
use std::alloc::Global;
use tpol_base::{Digest32, ExactClone, NoMemory, Sequence, Shelf};
use tpol_goal::Grants;
use tpol_name::{Directory, Setup, directory};
use tpol_scene::{Clients, Scene, Script};
use tpol_steps::{
    CompiledDocument, Halt, check_documents, check_limits, check_tried, load_store, scene_of_bytes,
};
use tpol_store::{CompiledApprovals, Store};
use tpol_tree::Approvals;

/// What the events of a scene go by: how it is carried out, the seed and the directory of the machine, the
/// entities whose policies are named, the documents that the script begins, what is approved, and what each
/// client may use.
#[derive(Drop)]
pub struct Scenario {
    pub manner: Manner,
    pub seed: Digest32,
    pub directory: Directory,
    pub entities: Sequence<CompiledEntity>,
    pub begun: Sequence<CompiledDocument>,
    pub approvals: CompiledApprovals,
    pub clients: Clients,
}

/// A scene that can be carried out: what its machine starts from, what its events go by, and its events.
#[derive(Drop)]
pub struct StagedScene {
    pub setup: Setup,
    pub scenario: Scenario,
    pub script: Script,
}

/// Reads the scene in the source, and looks up, fills and checks the policies that it names. It is carried out in this
/// manner.
///
/// `Refused` tells the first refusal: of the scene, of a ninth blind run, of the shelf's documents, of a name without a
/// policy, of a policy that is not filled, or of one that is not within the limits. `ShelfFailed` comes only where the
/// shelf failed, and `NoMemory` where memory ran out. The shelf is asked only once the scene was read and has no ninth
/// blind run.
#[tactic(auto, using(crate::proofs::StagedScenes::scene_for), unfolding(crate::specs::Scenario::staged_step))]
pub fn stage<H: Shelf>(
    alloc: Global,
    manner: Manner,
    input: &[u8],
    shelf: &mut H,
) -> Result<StagedScene, Halt>
    ensures answer { IfSome (H.documents shelf.old)
        (λ all. Answers erased_staged (staged_step manner input.now all) result) }
    ensures keeps { H.documents shelf.new ≡ H.documents shelf.old }
    ensures asks { AsksShelf true (IsSceneFor manner input.now) shelf.old shelf.new
        (H.faults shelf.old) (H.faults shelf.new) result }
    ensures staged { IfOk result IsStaged }
    ensures setup { IfOk result (λ staged. IsSetup staged.setup) }
    ensures scenario { IfOk result (λ staged. IsScenarioOf staged.setup staged.scenario) }
    ensures happens { IfOk result (λ staged. All CanHappen staged.script) }
    ensures few { IfOk result (λ staged. length staged.script ≤ 4096) }
{
    let scene = scene_of_bytes(alloc, input)?;
    match check_begins(alloc, manner.way(), scene.script.as_slice()) {
        Ok(()) => stage_scene(alloc, manner, scene, shelf),
        Err(halt) => {
            drop(scene);
            Err(halt)
        }
    }
}

// The same of a scene, with the policies of the shelf.
fn stage_scene<H: Shelf>(
    alloc: Global,
    manner: Manner,
    scene: Scene,
    shelf: &mut H,
) -> Result<StagedScene, Halt>
    requires setup { IsSetup scene.setup }
    requires clients { HasClients scene }
    requires script { HasScript scene }
    requires few { length scene.script ≤ 4096 }
    ensures answer { IfSome (H.documents shelf.old)
        (λ all. Answers erased_staged (staged_from manner scene all) result) }
    ensures keeps { H.documents shelf.new ≡ H.documents shelf.old }
    ensures asks { AsksShelf true ⊤ shelf.old shelf.new (H.faults shelf.old)
        (H.faults shelf.new) result }
    ensures staged { IfOk result IsStaged }
    ensures few { IfOk result (λ staged. length staged.script ≤ 4096) }
{
    match policies_on_shelf(alloc, manner, &scene, shelf) {
        Ok(policies) => Ok(staged(manner, scene, policies)),
        Err(halt) => {
            drop(scene);
            Err(halt)
        }
    }
}

// The policies of a scene, filled and within the limits, what is approved, and the directory of the machine.
type ScenePolicies = (PreparedScene, (CompiledApprovals, Directory));

// The policies of a scene, looked up on the shelf.
fn policies_on_shelf<H: Shelf>(
    alloc: Global,
    manner: Manner,
    scene: &Scene,
    shelf: &mut H,
) -> Result<ScenePolicies, Halt>
    requires setup { IsSetup scene.now.setup }
    requires clients { HasClients scene.now }
    requires script { HasScript scene.now }
    ensures answer { IfSome (H.documents shelf.old) (λ all.
        Answers (staged_of manner scene.now) (staged_from manner scene.now all) result) }
    ensures keeps { H.documents shelf.new ≡ H.documents shelf.old }
    ensures asks { AsksShelf true ⊤ shelf.old shelf.new (H.faults shelf.old)
        (H.faults shelf.new) result }
    ensures directory { IfOk result (λ found. found.1.1 ≡ directory_of found.0.setup) }
    ensures staged { IfOk result
        (λ found. IsStaged (scenario_with manner scene.now found.0 found.1.0)) }
{
    let store = load_store(alloc, shelf)?;
    policies_of_scene(alloc, manner, &store, scene)
}

// The policies of a scene, looked up in a store.
#[tactic(auto, unfolding(crate::specs::Scenario::staged_with, crate::specs::Scenario::staged_by))]
fn policies_of_scene(
    alloc: Global,
    manner: Manner,
    store: &Store,
    scene: &Scene,
) -> Result<ScenePolicies, Halt>
    requires readable { All IsReadable (stored store.now) }
    requires setup { IsSetup scene.now.setup }
    requires clients { HasClients scene.now }
    requires script { HasScript scene.now }
    ensures answer { Answers (staged_of manner scene.now)
        (staged_with manner scene.now (policies_of store.now)) result }
    ensures inside { IsInside result }
    ensures directory { IfOk result (λ found. found.1.1 ≡ directory_of found.0.setup) }
    ensures staged { IfOk result
        (λ found. IsStaged (scenario_with manner scene.now found.0 found.1.0)) }
{
    let prepared = prepare(alloc, store, scene)?;
    match approve_scene(alloc, manner.way(), store, &prepared) {
        Ok(approved) => Ok((prepared, approved)),
        Err(halt) => {
            drop(prepared);
            Err(halt)
        }
    }
}

// What is approved to the policies of a scene, all of which are within the limits, and the directory of the machine.
fn approve_scene(
    alloc: Global,
    way: Way,
    store: &Store,
    prepared: &PreparedScene,
) -> Result<(CompiledApprovals, Directory), Halt>
    requires readable { All IsReadable (stored store.now) }
    requires entities { All IsReadyEntity prepared.now.entities }
    requires begun { All IsReadyDocument prepared.now.begun }
    ensures answer { Answers (λ _. tt) (limited_step way (erased_prepared prepared.now)
        (approved_documents (policies_of store.now) (Some prepared.now.sight))) result }
    ensures inside { IsInside result }
    ensures approvals { IfOk result (λ found. map erased_document found.0
        ≡ approved_documents (policies_of store.now) (Some prepared.now.sight)) }
    ensures bounded { IfOk result (λ found. All HasApprovedBounds found.0) }
    ensures directory { IfOk result (λ found. found.1 ≡ directory_of prepared.now.setup) }
    ensures entities { IfOk result
        (λ found. All (λ entity. IsWalkable found.0 entity.document.closed) prepared.now.entities) }
    ensures begun { IfOk result
        (λ found. All (λ document. IsWalkable found.0 document.closed) prepared.now.begun) }
    ensures few { way ≡ Blind
        → IfOk result (λ found. All (HasFewPaths found.0) prepared.now.begun) }
{
    let approvals = store.compiled_approvals(alloc, Some(&prepared.sight))?;
    let directory = check_scene(alloc, way, prepared, approvals.documents())?;
    Ok((approvals, directory))
}

// The directory of a scene's machine, or the end of the run at the first policy of the scene that has too many
// paths, or one that is too long.
#[tactic(auto, using(crate::proofs::Walkable::all_walkable), unfolding(crate::specs::Scenario::limited_step))]
fn check_scene(
    alloc: Global,
    way: Way,
    prepared: &PreparedScene,
    approvals: &Approvals,
) -> Result<Directory, Halt>
    requires entities { All IsReadyEntity prepared.now.entities }
    requires begun { All IsReadyDocument prepared.now.begun }
    requires approvals { All IsFilledApproval approvals.now }
    ensures answer { Answers (λ _. tt)
        (limited_step way (erased_prepared prepared.now) (map erased_document approvals.now))
        result }
    ensures inside { IsInside result }
    ensures directory { IfOk result (λ directory. directory ≡ directory_of prepared.now.setup) }
    ensures entities { IfOk result
        (λ _. All (λ entity. IsWalkable approvals.now entity.document.closed)
        prepared.now.entities) }
    ensures begun { IfOk result
        (λ _. All (λ document. IsWalkable approvals.now document.closed) prepared.now.begun) }
    ensures few { way ≡ Blind
        → IfOk result (λ _. All (HasFewPaths approvals.now) prepared.now.begun) }
{
    check_entities(alloc, prepared.entities.as_slice(), approvals)?;
    check_begun(alloc, way, prepared.begun.as_slice(), approvals)?;
    Ok(directory(alloc, &prepared.setup)?)
}

// Nothing, or the end of the run at the first policy that a script begins and whose paths are too many or too long
// for the way in which its runs are driven.
fn check_begun(
    alloc: Global,
    way: Way,
    begun: &[CompiledDocument],
    approvals: &Approvals,
) -> Result<(), Halt>
    ensures answer { Answers (λ _. tt)
        (begun_limits way (map erased_document approvals.now) (map erased_filled begun.now))
        result }
    ensures inside { IsInside result }
    ensures within { IfOk result
        (λ _. All (λ document. AreWithinLimits (paths_of document.closed approvals.now))
        begun.now) }
    ensures few { way ≡ Blind → IfOk result (λ _. All (HasFewPaths approvals.now) begun.now) }
{
    match way {
        Way::Sighted | Way::WithTickets => check_documents(alloc, begun, approvals),
        Way::Blind => check_tried(alloc, begun, approvals),
    }
}

// Nothing, or the end of the run at the first policy of an entity that has too many paths, or one that is too long.
#[tactic(auto, using(crate::proofs::Walkable::walkable), unfolding(tpol_steps::specs::Limits::limits_step))]
fn check_entities(
    alloc: Global,
    entities: &[CompiledEntity],
    approvals: &Approvals,
) -> Result<(), Halt>
    requires policies { All IsReadyEntity entities.now }
    requires approvals { All IsFilledApproval approvals.now }
    ensures answer { Answers (λ _. tt)
        (limits_step (map erased_document approvals.now)
        (map entity_document (map erased_entity entities.now))) result }
    ensures inside { IsInside result }
    ensures within { IfOk result
        (λ _. All (λ entity. IsWalkable approvals.now entity.document.closed) entities.now) }
{
    for entity in entities {
        let document = entity.document.filled();
        check_limits(alloc, Some(&document.name), &document.closed, approvals)?;
    }
    Ok(())
}

// The parts of a scene that can be carried out, put together.
fn staged(manner: Manner, scene: Scene, policies: ScenePolicies) -> StagedScene
    requires { policies.1.1 ≡ directory_of policies.0.setup }
    ensures { result ≡ scenario_with manner scene policies.0 policies.1.0 }
{
    let Scene {
        setup: bare,
        clients,
        script,
        ..
    } = scene;
    let (prepared, (approvals, directory)) = policies;
    let PreparedScene {
        setup,
        sight,
        entities,
        begun,
    } = prepared;
    drop(bare);
    drop(sight);
    let scenario = Scenario {
        manner,
        seed: setup.seed,
        directory,
        entities,
        begun,
        approvals,
        clients,
    };
    StagedScene {
        setup,
        scenario,
        script,
    }
}

impl Scenario {
    /// The document of this name that the script begins.
    pub fn document(&self, name: &str) -> Option<&CompiledDocument>
        ensures { option_copied result ≡ find (is_document name.now) self.now.begun }
    {
        self.begun
            .as_slice()
            .iter()
            .find(|document| document.filled().name.as_str() == name)
    }

    /// The document of the policy of the entity of this handle, where the scene names it.
    pub fn document_of_entity(&self, handle: u32) -> Option<&CompiledDocument>
        ensures { option_map (λ (document : OneDocument). document.closed) (option_copied result)
            ≡ policy_of_entity self.now.entities handle }
    {
        let entity = find_entity(self.entities.as_slice(), handle)?;
        Some(&entity.document)
    }

    /// What a client may use: nothing where it is not listed. It fails only where memory ran out.
    pub fn grants(&self, alloc: Global, client: u32) -> Result<Grants, NoMemory>
        ensures { IfOk result (λ grants. grants ≡ grants_of self.now.clients client) }
    {
        match find_client(self.clients.as_slice(), client) {
            Some(client) => Ok(client.1.exact_clone()?),
            None => Ok(Grants {
                secrets: Sequence::new(alloc),
                keys: Sequence::new(alloc),
            }),
        }
    }
}

fn find_entity(entities: &[CompiledEntity], handle: u32) -> Option<&CompiledEntity>
    ensures { option_copied result ≡ find (is_entity handle) (reverse entities.now) }
{
    entities.iter().rev().find(|entity| entity.handle == handle)
}

fn find_client(clients: &[(u32, Grants)], number: u32) -> Option<&(u32, Grants)>
    ensures { option_copied result ≡ find (is_client number) clients.now }
{
    clients.iter().find(|client| client.0 == number)
}
