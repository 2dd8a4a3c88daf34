ghost use Rattle.std.specs.Prelude.{◌≡◌, true, is_some, IfSome, IfOk, ⊤};
ghost use Rattle.tpol_base.specs.Documents.{most_handed_out};
ghost use Rattle.tpol_name.specs.Setups.{IsSetup};
ghost use Rattle.tpol_scene.specs.Conditions.{HasClients, HasLimits, HasScript};
ghost use Rattle.tpol_steps.specs.SceneStep.{named_scene_step, scene_file, scene_of_bytes, scene_of_found, scene_step};
ghost use Rattle.tpol_steps.specs.Steps.{Answers, AsksShelf, IsInside};

use crate::answer::{Answer, Verdict};
use crate::halt::Halt;
use crate::refusals::{bad_scene, scene_kind_name, too_large_in};
use std::alloc::Global;
use tpol_base::{Blob, NoMemory, Shelf, Text, most_handed_out};
use tpol_scene::{Scene, SceneFault, read_scene};

// Reads the scene of this name on the shelf, or ends the run at its first fault.
#[tactic(auto, unfolding(crate::specs::SceneStep::scene_step))]
fn scene_of_shelf<H: Shelf>(alloc: Global, name: &Text, shelf: &mut H) -> Result<Scene, Halt>
    ensures answer { IfSome (H.documents shelf.old)
        (λ all. Answers (λ scene. scene) (scene_step name.now all) result) }
    ensures keeps { H.documents shelf.new ≡ H.documents shelf.old }
    ensures asks { AsksShelf true ⊤ shelf.old shelf.new (H.faults shelf.old)
        (H.faults shelf.new) result }
{
    let file = scene_file(alloc, name)?;
    let found = shelf.fetch(file.as_str())?;
    scene_of_found(alloc, name, found)
}

/// The scene of this name on the shelf, if one is named.
///
/// `Refused` tells that the shelf has no such scene, that it has more than 1,048,576 bytes or is no JSON text, or
/// its first fault. `ShelfFailed` comes only where the shelf failed, and `NoMemory` where memory ran out. Where no
/// scene is named, the shelf is left alone.
#[tactic(auto, unfolding(crate::specs::SceneStep::named_scene_step))]
pub fn named_scene<H: Shelf>(
    alloc: Global,
    name: &Option<Text>,
    shelf: &mut H,
) -> Result<Option<Scene>, Halt>
    ensures answer { IfSome (H.documents shelf.old)
        (λ all. Answers (λ scene. scene) (named_scene_step name.now all) result) }
    ensures keeps { H.documents shelf.new ≡ H.documents shelf.old }
    ensures asks { AsksShelf (is_some name.now) ⊤ shelf.old shelf.new (H.faults shelf.old)
        (H.faults shelf.new) result }
{
    match name {
        None => Ok(None),
        Some(name) => {
            let scene = scene_of_shelf(alloc, name, shelf)?;
            Ok(Some(scene))
        }
    }
}

// The document of a scene.
fn scene_file(alloc: Global, name: &Text) -> Result<Text, NoMemory>
    ensures { IfOk result (λ file. file ≡ scene_file name.now) }
{
    let mut file = name.try_clone(alloc)?;
    file.push_str(".scene")?;
    Ok(file)
}

fn scene_of_found(alloc: Global, name: &Text, found: Option<Blob>) -> Result<Scene, Halt>
    ensures answer { Answers (λ scene. scene) (scene_of_found name.now found) result }
    ensures inside { IsInside result }
{
    let Some(bytes) = found else {
        let line = "error BadScene NoSuchScene";
        return Err(Halt::Refused(Answer::of_line(alloc, line, Verdict::BadScene)?));
    };
    if bytes.len() >= most_handed_out() {
        return Err(Halt::Refused(too_large_in(alloc, name)?));
    }
    scene_of_bytes(alloc, bytes.as_slice())
}

/// Reads a scene, or ends the run at its first fault.
///
/// `Refused` tells that the bytes are no JSON text, or that fault; `NoMemory` comes where memory ran out, and
/// nothing else comes.
#[tactic(auto, unfolding(crate::specs::SceneStep::scene_of_bytes))]
pub fn scene_of_bytes(alloc: Global, bytes: &[u8]) -> Result<Scene, Halt>
    ensures answer { Answers (λ scene. scene) (scene_of_bytes bytes.now) result }
    ensures inside { IsInside result }
    ensures setup { IfOk result (λ scene. IsSetup scene.setup) }
    ensures limits { IfOk result HasLimits }
    ensures clients { IfOk result HasClients }
    ensures script { IfOk result HasScript }
{
    match read_scene(alloc, bytes) {
        Ok(scene) => Ok(scene),
        Err(SceneFault::NotJson) => {
            let line = "error BadScene NotJson";
            Err(Halt::Refused(Answer::of_line(alloc, line, Verdict::BadScene)?))
        }
        Err(SceneFault::Bad { kind, place }) => {
            Err(Halt::Refused(bad_scene(alloc, scene_kind_name(kind), &place)?))
        }
        Err(SceneFault::NoMemory) => Err(Halt::NoMemory),
    }
}
