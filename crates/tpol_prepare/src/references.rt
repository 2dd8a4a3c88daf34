ghost use Rattle.std.specs.Prelude.{◌≡◌, ◌++◌, All, IfOk, OnOk, map};
ghost use Rattle.std.specs.List.{flat_map};
ghost use Rattle.tpol_store.specs.Stores.{IsReadable, policies_of, stored};
ghost use Rattle.tpol_prepare.specs.References.{entity_reference, event_references, policy_at, references_step, script_references};
ghost use Rattle.tpol_steps.specs.Steps.{Answers, IsInside};
ghost use Rattle.tpol_tree.specs.Bounds.{HasBounds};
ghost use Rattle.tpol_tree.specs.Elements as written;
ghost use Rattle.tpol_tree.specs.Erased.{erased_policy};

use std::alloc::Global;
use tpol_base::{NoMemory, Sequence, Text};
use tpol_json::Place;
use tpol_scene::{EntityPolicy, Scene, ScriptEvent};
use tpol_steps::{Halt, bad_scene};
use tpol_store::Store;
use tpol_tree::Policy;

/// A policy that a scene names, and where the name stands.
#[derive(Drop)]
pub struct Reference {
    pub name: Text,
    pub place: Place,
}

/// The policies that the script of a scene begins, in order. It fails only where memory ran out.
pub fn script_references(alloc: Global, scene: &Scene) -> Result<Sequence<Reference>, NoMemory>
    ensures { IfOk result (λ references. references ≡ script_references scene.now) }
{
    references_of(alloc, scene.script.as_slice())
}

fn references_of(alloc: Global, script: &[ScriptEvent]) -> Result<Sequence<Reference>, NoMemory>
    ensures { IfOk result (λ references. references ≡ flat_map event_references script.now) }
{
    let mut references = Sequence::new(alloc);
    for event in script {
        add_reference(alloc, &mut references, event)?;
    }
    Ok(references)
}

// Adds the policy that an event begins.
fn add_reference(
    alloc: Global,
    references: &mut Sequence<Reference>,
    event: &ScriptEvent,
) -> Result<(), NoMemory>
    ensures { OnOk result (references.new ≡ references.old ++ event_references event.now) }
{
    match event {
        ScriptEvent::Begin { policy, place, .. } => {
            let name = policy.try_clone(alloc)?;
            let place = place.try_clone(alloc)?;
            references.push(Reference { name, place })
        }
        _ => Ok(()),
    }
}

/// Ends the run at the first entity that names a policy which the store has not.
///
/// `Refused` tells where that name stands; `NoMemory` comes where memory for that line ran out, and nothing else
/// comes.
#[tactic(auto, unfolding(crate::specs::References::references_step))]
pub fn check_entities(alloc: Global, store: &Store, policies: &[EntityPolicy]) -> Result<(), Halt>
    ensures answer { Answers (λ _. tt)
        (references_step (policies_of store.now) (map entity_reference policies.now)) result }
    ensures inside { IsInside result }
{
    for policy in policies {
        policy_at(alloc, store, &policy.name, &policy.place)?;
    }
    Ok(())
}

/// Ends the run at the first reference to a policy which the store has not.
///
/// `Refused` tells where it stands; `NoMemory` comes where memory for that line ran out, and nothing else comes.
#[tactic(auto, unfolding(crate::specs::References::references_step))]
pub fn check_references(alloc: Global, store: &Store, references: &[Reference]) -> Result<(), Halt>
    ensures answer { Answers (λ _. tt)
        (references_step (policies_of store.now) references.now) result }
    ensures inside { IsInside result }
{
    for reference in references {
        policy_at(alloc, store, &reference.name, &reference.place)?;
    }
    Ok(())
}

/// The policy of this name, which a scene names at this place, or the end of the run where the store has none.
///
/// `Refused` tells this place; `NoMemory` comes where memory for that line ran out, and nothing else comes.
#[tactic(auto, unfolding(crate::specs::References::policy_at), using(crate::proofs::Stored::policy_called_erased))]
pub fn policy_at<'a>(
    alloc: Global,
    store: &'a Store,
    name: &Text,
    place: &Place,
) -> Result<&'a Policy, Halt>
    ensures answer { Answers (λ policy. erased_policy policy.now)
        (policy_at (policies_of store.now) name.now place.now) result }
    ensures inside { IsInside result }
    ensures branches { All IsReadable (stored store.now)
        → IfOk result (λ policy. written.HasBranchCounts policy.now.elements) }
    ensures bounded { All IsReadable (stored store.now)
        → IfOk result (λ policy. HasBounds policy.now) }
{
    match store.find(name.as_str()) {
        Some(policy) => Ok(policy),
        None => Err(Halt::Refused(bad_scene(alloc, "NoSuchPolicy", place)?)),
    }
}
