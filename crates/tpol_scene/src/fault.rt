//! Why a scene is refused.

use tpol_entities::SceneKind;
use tpol_json::Place;

/// Why a scene is refused.
#[derive(Drop)]
pub enum SceneFault {
    /// The bytes are no JSON text.
    NotJson,
    /// The first fault in reading order.
    Bad { kind: SceneKind, place: Place },
    /// Memory ran out.
    NoMemory,
}
