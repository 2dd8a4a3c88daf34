//! The entities of a scene and its clients.

ghost use Rattle.serde_json.specs.View.{view};
ghost use Rattle.tpol_json.specs.Reading.{Gives};
ghost use Rattle.tpol_scene.specs.Scenes.{cast_in};

use crate::clients::{Clients, optional_clients};
use serde_json::Value;
use std::alloc::Global;
use tpol_entities::{Entities, PartFault, optional_entities};
use tpol_json::PlaceRef;

/// The entities of a scene and its clients, which the events of its script name.
#[derive(Drop)]
pub struct Cast {
    pub entities: Entities,
    pub clients: Clients,
}

/// Reads the members `entities` and `clients`.
#[tactic(auto, unfolding(crate::specs::Scenes::cast_in))]
pub fn read_cast(alloc: Global, value: &Value, place: &PlaceRef<'_>) -> Result<Cast, PartFault>
    ensures { Gives result (cast_in (view value.now) place.now) }
{
    let entities = optional_entities(alloc, value, place)?;
    match optional_clients(alloc, &entities, value, place) {
        Ok(clients) => Ok(Cast { entities, clients }),
        Err(fault) => {
            drop(entities);
            Err(fault)
        }
    }
}
