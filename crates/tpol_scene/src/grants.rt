//! What a client may use: authorization values and HMAC keys, each by the handle of what it is for.

ghost use Rattle.std.specs.Prelude.{◌≡◌, [], codes};
ghost use Rattle.serde_json.specs.View.{view};
ghost use Rattle.tpol_json.specs.Reading.{Gives};
ghost use Rattle.tpol_json.specs.Members.{optional};
ghost use Rattle.tpol_entities.specs.Members.{needed};
ghost use Rattle.tpol_scene.specs.Clients.{grant_target, grant_value_in, grants_in, new_target_in};

use serde_json::Value;
use std::alloc::Global;
use tpol_base::{Blob, Sequence};
use tpol_entities::{
    Entities, ItemReader, PartFault, SceneKind, Target, has_number, needed_bytes, needed_target,
    optional_auth, optional_list,
};
use tpol_goal::Secrets;
use tpol_json::{PlaceRef, check_object, refuse};

/// The most bytes of an HMAC key.
const MAX_KEY: usize = 128;

/// What is granted: the authorization value of a hierarchy, an object or an index; the HMAC key of an object.
#[derive(Clone, Copy)]
pub enum GrantKind {
    Secret,
    Key,
}

/// A member that lists grants of a kind, for these entities. Without it there are none. `WrongKind` for what is no
/// list, and else the first fault of its items: a path of no such entity is `NoSuchPath`, one that has its grant
/// already is `Twice`.
pub fn optional_grants(
    alloc: Global,
    entities: &Entities,
    kind: GrantKind,
    item: &Value,
    name: &str,
    place: &PlaceRef<'_>,
) -> Result<Secrets, PartFault>
    ensures { Gives result (optional (grants_in entities.now kind) [] name.now
        (view item.now) place.now) }
{
    let reader = GrantReader { entities, kind };
    optional_list(alloc, &reader, Sequence::new(alloc), item, name, place)
}

// Reads grants of a kind, for these entities.
#[derive(Clone, Copy)]
struct GrantReader<'a> {
    entities: &'a Entities,
    kind: GrantKind,
}

impl<'a> ItemReader<Secrets> for GrantReader<'a> {
    ghost use Rattle.tpol_scene.specs.Clients.{grant_in};

    ghost reading = { λ reader. grant_in reader.entities.now reader.kind };

    #[tactic(auto, unfolding(crate::specs::Clients::grant_in))]
    fn read_item(
        &self,
        alloc: Global,
        values: &mut Secrets,
        _index: usize,
        item: &Value,
        place: &PlaceRef<'_>,
    ) -> Result<(), PartFault> {
        check_object(alloc, item, place)?;
        let target = grant_target(self.kind);
        let handle = needed_new_target(
            alloc,
            self.entities,
            target,
            values.as_slice(),
            item,
            place,
        )?;
        let value = grant_value(alloc, self.kind, item, place)?;
        values.push((handle, value)).map_err(PartFault::from)
    }
}

fn grant_target(kind: GrantKind) -> Target
    ensures { result ≡ grant_target kind }
{
    match kind {
        GrantKind::Secret => Target::Entity,
        GrantKind::Key => Target::Object,
    }
}

fn grant_value(
    alloc: Global,
    kind: GrantKind,
    item: &Value,
    place: &PlaceRef<'_>,
) -> Result<Blob, PartFault>
    ensures { Gives result (grant_value_in kind (view item.now) place.now) }
{
    match kind {
        GrantKind::Secret => optional_auth(alloc, item, "auth", place),
        GrantKind::Key => needed_bytes(alloc, item, "key", MAX_KEY, place),
    }
}

// The handle of the entity that `path` names, for which no value was granted before.
#[tactic(auto, using(crate::proofs::BindLemmas::new_target))]
fn needed_new_target(
    alloc: Global,
    entities: &Entities,
    target: Target,
    values: &[(u32, Blob)],
    item: &Value,
    place: &PlaceRef<'_>,
) -> Result<u32, PartFault>
    ensures { Gives result (needed (new_target_in entities.now target values.now) (codes "path")
        (view item.now) place.now) }
{
    let handle = needed_target(alloc, entities, target, item, "path", place)?;
    if has_number(values, handle) {
        refuse(alloc, SceneKind::Twice, &place.member("path"))
    } else {
        Ok(handle)
    }
}
