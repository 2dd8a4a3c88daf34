//! Policies that are filled with what the shelf has.

ghost use Rattle.std.specs.Option.{option_copied};
ghost use Rattle.std.specs.Prelude.{◌≡◌, true, is_some, IfSome, IfOk, map, ⊤};
ghost use Rattle.tpol_digest.specs.Limits.{AreWithinLimits};
ghost use Rattle.tpol_digest.specs.Paths.{paths_of};
ghost use Rattle.tpol_prepare.specs.Shelved.{closed_at, closed_source, closed_step, erased_with_approvals, shelved_of, shelved_sight, shelved_step, sight_step, with_approvals, within_step};
ghost use Rattle.tpol_steps.specs.Steps.{Answers, AsksShelf, IsInside};
ghost use Rattle.tpol_store.specs.Approvals.{approved_documents};
ghost use Rattle.tpol_store.specs.Stores.{policies_of};
ghost use Rattle.tpol_tree.specs.ClosedErased.{erased, erased_document};
ghost use Rattle.tpol_tree.specs.Erased.{erased_policy};

use crate::prepared::opening_of;
use std::alloc::Global;
use tpol_base::{Shelf, Text};
use tpol_name::Sight;
use tpol_scene::Scene;
use tpol_steps::{Halt, check_limits, fill_document, load_store, named_scene};
use tpol_store::Store;
use tpol_tree::{Approvals, Closed, Policy};

/// The policies of a shelf, and its scene of a name, if one is named.
#[derive(Drop)]
pub struct StoreWithScene {
    pub store: Store,
    pub scene: Option<Scene>,
}

/// A policy that is filled, and the documents that are approved.
#[derive(Drop)]
pub struct PolicyWithApprovals {
    pub closed: Closed,
    pub approvals: Approvals,
}

impl StoreWithScene {
    /// Reads the scene of this name on the shelf, if one is named, and loads the shelf's policies.
    ///
    /// `Refused` tells the first refusal: of the scene, or of the shelf's documents. `ShelfFailed` comes only where
    /// the shelf failed, and `NoMemory` where memory ran out.
    #[tactic(auto, unfolding(crate::specs::Shelved::shelved_step))]
    pub fn load<H: Shelf>(
        alloc: Global,
        scene: &Option<Text>,
        shelf: &mut H,
    ) -> Result<StoreWithScene, Halt>
        ensures answer { IfSome (H.documents shelf.old)
            (λ all. Answers shelved_of (shelved_step scene.now all) result) }
        ensures keeps { H.documents shelf.new ≡ H.documents shelf.old }
        ensures asks { AsksShelf true ⊤ shelf.old shelf.new (H.faults shelf.old)
            (H.faults shelf.new) result }
    {
        let scene = named_scene(alloc, scene, shelf)?;
        match load_store(alloc, shelf) {
            Ok(store) => Ok(StoreWithScene { store, scene }),
            Err(halt) => {
                drop(scene);
                Err(halt)
            }
        }
    }

    /// A policy that is filled with what the machine of the scene shows when it starts, and the documents that are
    /// approved then. The policy is that of a document of the shelf, where one is named.
    ///
    /// `Refused` tells the first refusal: of a policy that the scene names and that is not there or not filled, of a
    /// place of the policy that has no value, or of paths that are not within the limits. `NoMemory` comes where memory
    /// ran out, and nothing else comes.
    #[tactic(auto, unfolding(crate::specs::Shelved::closed_step))]
    pub fn closed(
        &self,
        alloc: Global,
        document: Option<&Text>,
        policy: &Policy,
    ) -> Result<PolicyWithApprovals, Halt>
        ensures answer { Answers erased_with_approvals
            (closed_step (shelved_of self.now) (option_copied document.entry)
            (erased_policy policy.now)) result }
        ensures inside { IsInside result }
        ensures within { IfOk result
            (λ found. AreWithinLimits (paths_of found.closed found.approvals)) }
    {
        let sight = opening_of(alloc, &self.store, &self.scene)?;
        let found = closed_at(alloc, &self.store, sight.as_ref(), document, policy);
        drop(sight);
        found
    }
}

// The same with what a machine shows.
#[tactic(auto, unfolding(crate::specs::Shelved::closed_at))]
fn closed_at(
    alloc: Global,
    store: &Store,
    sight: Option<&Sight>,
    document: Option<&Text>,
    policy: &Policy,
) -> Result<PolicyWithApprovals, Halt>
    ensures answer { Answers erased_with_approvals
        (closed_at (policies_of store.now) (option_copied sight.entry)
        (option_copied document.entry) (erased_policy policy.now)) result }
    ensures inside { IsInside result }
    ensures within { IfOk result
        (λ found. AreWithinLimits (paths_of found.closed found.approvals)) }
{
    let closed = fill_document(alloc, document, policy, sight)?;
    match approvals_within(alloc, store, sight, document, &closed) {
        Ok(approvals) => Ok(PolicyWithApprovals { closed, approvals }),
        Err(halt) => {
            drop(closed);
            Err(halt)
        }
    }
}

// What is approved, where the paths of this policy are within the limits then.
#[tactic(auto, unfolding(crate::specs::Shelved::within_step))]
fn approvals_within(
    alloc: Global,
    store: &Store,
    sight: Option<&Sight>,
    document: Option<&Text>,
    closed: &Closed,
) -> Result<Approvals, Halt>
    ensures answer { Answers
        (λ approvals. with_approvals (erased closed.now) (map erased_document approvals))
        (within_step (option_copied document.entry) (erased closed.now)
        (approved_documents (policies_of store.now) (option_copied sight.entry))) result }
    ensures inside { IsInside result }
    ensures within { IfOk result (λ approvals. AreWithinLimits (paths_of closed.now approvals)) }
{
    let approvals = store.approvals(alloc, sight)?;
    match check_limits(alloc, document, closed, &approvals) {
        Ok(()) => Ok(approvals),
        Err(halt) => {
            drop(approvals);
            Err(halt)
        }
    }
}

/// A policy of the source that is filled with what the machine of the shelf's scene of this name shows when it starts,
/// if one is named, and the documents of the shelf that are approved then.
///
/// `Refused` tells the first refusal: of the scene, of the shelf's documents, of a policy that the scene names and that
/// is not there or not filled, of a place of the policy that has no value, or of paths that are not within the limits.
/// `ShelfFailed` comes only where the shelf failed, and `NoMemory` where memory ran out.
#[tactic(auto, unfolding(crate::specs::Shelved::closed_source))]
pub fn closed_source<H: Shelf>(
    alloc: Global,
    scene: &Option<Text>,
    policy: &Policy,
    shelf: &mut H,
) -> Result<PolicyWithApprovals, Halt>
    ensures answer { IfSome (H.documents shelf.old) (λ all. Answers erased_with_approvals
        (closed_source scene.now (erased_policy policy.now) all) result) }
    ensures keeps { H.documents shelf.new ≡ H.documents shelf.old }
    ensures asks { AsksShelf true ⊤ shelf.old shelf.new (H.faults shelf.old)
        (H.faults shelf.new) result }
    ensures within { IfOk result
        (λ found. AreWithinLimits (paths_of found.closed found.approvals)) }
{
    let shelved = StoreWithScene::load(alloc, scene, shelf)?;
    let found = shelved.closed(alloc, None, policy);
    drop(shelved);
    found
}

/// What the machine of a scene of the shelf shows when it starts, if one is named; the policies that the scene
/// names are documents of the shelf.
///
/// `Refused` tells the first refusal: of the scene, of the shelf's documents, of a name without a policy, or of a
/// policy that is not filled. `ShelfFailed` comes only where the shelf failed, and `NoMemory` where memory ran
/// out. Where no scene is named, the shelf is left alone.
#[tactic(auto, unfolding(crate::specs::Shelved::sight_step))]
pub fn sight_of_scene<H: Shelf>(
    alloc: Global,
    name: &Option<Text>,
    shelf: &mut H,
) -> Result<Option<Sight>, Halt>
    ensures answer { IfSome (H.documents shelf.old)
        (λ all. Answers (λ sight. sight) (sight_step name.now all) result) }
    ensures keeps { H.documents shelf.new ≡ H.documents shelf.old }
    ensures asks { AsksShelf (is_some name.now) ⊤ shelf.old shelf.new (H.faults shelf.old)
        (H.faults shelf.new) result }
{
    match name {
        None => Ok(None),
        Some(_) => shelved_sight(alloc, name, shelf),
    }
}

// The same of a scene that is named.
#[tactic(auto, unfolding(crate::specs::Shelved::shelved_sight))]
fn shelved_sight<H: Shelf>(
    alloc: Global,
    name: &Option<Text>,
    shelf: &mut H,
) -> Result<Option<Sight>, Halt>
    ensures answer { IfSome (H.documents shelf.old)
        (λ all. Answers (λ sight. sight) (shelved_sight name.now all) result) }
    ensures keeps { H.documents shelf.new ≡ H.documents shelf.old }
    ensures asks { AsksShelf true ⊤ shelf.old shelf.new (H.faults shelf.old)
        (H.faults shelf.new) result }
{
    let shelved = StoreWithScene::load(alloc, name, shelf)?;
    let sight = opening_of(alloc, &shelved.store, &shelved.scene);
    drop(shelved);
    sight
}
