//! Scenes.

ghost use Rattle.std.specs.Prelude.{◌≡◌, IfOk, IfErr};
ghost use Rattle.serde_json.specs.View.{view};
ghost use Rattle.tpol_name.specs.Setups.{IsSetup};
ghost use Rattle.tpol_json.specs.Reading.{Gives};
ghost use Rattle.tpol_scene.specs.Conditions.{HasClients, HasLimits, HasPlaces, HasScript};
ghost use Rattle.tpol_scene.specs.Scenes.{IsDocumentOf, IsFaultOf, scene_in, scene_with};

use crate::SceneFault;
use crate::cast::{Cast, read_cast};
use crate::clients::Clients;
use crate::script::{Script, optional_script};
use crate::start::{Start, read_start, setup_with};
use serde_json::Value;
use std::alloc::Global;
use tpol_entities::{Entities, EntityPolicies, PartFault};
use tpol_json::{ParseFault, Place, PlaceRef, check_object, parse};
use tpol_name::Setup;

/// What a machine starts from, its entities whose authorization policy is named, its clients, and what happens
/// in order. The `auth_policy` of an entity that names a policy is empty in the setup.
#[derive(Drop)]
pub struct Scene {
    pub setup: Setup,
    pub policies: EntityPolicies,
    pub clients: Clients,
    pub script: Script,
}

/// Reads a scene: a JSON object with the members `seed`, `owner`, `endorsement`, `lockout`, `pcrs`,
/// `pcrCounter`, `time`, `resetCount`, `restartCount`, `safe`, `presence`, `entities`, `clients` and `script`,
/// in this order, each of which may be left out. Other members are passed over. `NotJson` comes where the bytes
/// are no JSON text, and `Bad` with the first fault in reading order. The policies that entities and runs name
/// are given without `/policy/` in front, whatever they are called: whether there are such policies is for the
/// caller to find out.
pub fn read_scene(alloc: Global, bytes: &[u8]) -> Result<Scene, SceneFault>
    ensures scene { IfOk result (IsDocumentOf bytes.now) }
    ensures setup { IfOk result (λ scene. IsSetup scene.setup) }
    ensures places { IfOk result HasPlaces }
    ensures limits { IfOk result HasLimits }
    ensures clients { IfOk result HasClients }
    ensures script { IfOk result HasScript }
    ensures refused { IfErr result (IsFaultOf bytes.now) }
{
    let value = match parse(alloc, bytes) {
        Ok(value) => value,
        Err(ParseFault::NotJson) => return Err(SceneFault::NotJson),
        Err(ParseFault::NoMemory) => return Err(SceneFault::NoMemory),
    };
    let root = Place::root(alloc);
    match scene_of(alloc, &value, &PlaceRef::at(&root)) {
        Ok(scene) => Ok(scene),
        Err(PartFault::Bad { kind, place }) => Err(SceneFault::Bad { kind, place }),
        Err(PartFault::NoMemory) => Err(SceneFault::NoMemory),
    }
}

#[tactic(auto, unfolding(crate::specs::Scenes::scene_in))]
fn scene_of(alloc: Global, value: &Value, place: &PlaceRef<'_>) -> Result<Scene, PartFault>
    ensures { Gives result (scene_in (view value.now) place.now) }
{
    check_object(alloc, value, place)?;
    let start = read_start(alloc, value, place)?;
    let cast = match read_cast(alloc, value, place) {
        Ok(cast) => cast,
        Err(fault) => {
            drop(start);
            return Err(fault);
        }
    };
    match optional_script(alloc, &cast, value, place) {
        Ok(front) => Ok(scene_with(start, cast, front.events)),
        Err(fault) => {
            drop(cast);
            drop(start);
            Err(fault)
        }
    }
}

fn scene_with(start: Start, cast: Cast, script: Script) -> Scene
    ensures { result ≡ scene_with start cast script }
{
    let Cast { entities, clients } = cast;
    let Entities {
        objects,
        indices,
        policies,
    } = entities;
    Scene {
        setup: setup_with(start, objects, indices),
        policies,
        clients,
        script,
    }
}
