//! The clients of a scene, and what each may use.

ghost use Rattle.std.specs.Prelude.{[], codes};
ghost use Rattle.serde_json.specs.View.{view};
ghost use Rattle.tpol_json.specs.Reading.{Gives};
ghost use Rattle.tpol_json.specs.Members.{optional};
ghost use Rattle.tpol_entities.specs.Members.{needed};
ghost use Rattle.tpol_scene.specs.Clients.{clients_in, listed_client_in, new_client_in};

use crate::grants::{GrantKind, optional_grants};
use serde_json::Value;
use std::alloc::Global;
use tpol_base::Sequence;
use tpol_entities::{
    Entities, ItemReader, PartFault, SceneKind, has_number, needed_u32, optional_list,
};
use tpol_goal::Grants;
use tpol_json::{PlaceRef, check_limit, check_object, refuse};

/// The most clients of a scene.
const CLIENTS: usize = 64;

/// The clients by their numbers, in the order of the scene, with what each may use.
pub type Clients = Sequence<(u32, Grants)>;

/// The member `clients`: a list of clients, without it none. Their grants are for these entities. `WrongKind` for what
/// is no list, and else the first fault of its items: a 65th is `TooMany`, a number that was listed before is `Twice`.
pub fn optional_clients(
    alloc: Global,
    entities: &Entities,
    value: &Value,
    place: &PlaceRef<'_>,
) -> Result<Clients, PartFault>
    ensures { Gives result
        (optional (clients_in entities.now) [] (codes "clients") (view value.now) place.now) }
{
    let reader = ClientReader { entities };
    optional_list(
        alloc,
        &reader,
        Sequence::new(alloc),
        value,
        "clients",
        place,
    )
}

// Reads clients, whose grants are for these entities.
#[derive(Clone, Copy)]
struct ClientReader<'a> {
    entities: &'a Entities,
}

impl<'a> ItemReader<Clients> for ClientReader<'a> {
    ghost use Rattle.tpol_scene.specs.Clients.{client_in};

    ghost reading = { λ reader. client_in reader.entities.now };

    #[tactic(auto, unfolding(crate::specs::Clients::client_in))]
    fn read_item(
        &self,
        alloc: Global,
        clients: &mut Clients,
        index: usize,
        item: &Value,
        place: &PlaceRef<'_>,
    ) -> Result<(), PartFault> {
        check_limit(alloc, index, CLIENTS, place)?;
        check_object(alloc, item, place)?;
        let client = needed_new_client(alloc, clients.as_slice(), item, place)?;
        let secrets = optional_grants(
            alloc,
            self.entities,
            GrantKind::Secret,
            item,
            "secrets",
            place,
        )?;
        let keys = optional_grants(alloc, self.entities, GrantKind::Key, item, "keys", place)?;
        clients
            .push((client, Grants { secrets, keys }))
            .map_err(PartFault::from)
    }
}

// The number of a client that was not listed before.
#[tactic(auto, using(crate::proofs::BindLemmas::new_client))]
fn needed_new_client(
    alloc: Global,
    clients: &[(u32, Grants)],
    item: &Value,
    place: &PlaceRef<'_>,
) -> Result<u32, PartFault>
    ensures { Gives result
        (needed (new_client_in clients.now) (codes "client") (view item.now) place.now) }
{
    let client = needed_u32(alloc, item, "client", place)?;
    if has_number(clients, client) {
        refuse(alloc, SceneKind::Twice, &place.member("client"))
    } else {
        Ok(client)
    }
}

/// The number of a client that is listed. Another number is `NoSuchClient`.
#[tactic(auto, using(crate::proofs::BindLemmas::listed_client))]
pub fn needed_listed_client(
    alloc: Global,
    clients: &[(u32, Grants)],
    item: &Value,
    place: &PlaceRef<'_>,
) -> Result<u32, PartFault>
    ensures { Gives result
        (needed (listed_client_in clients.now) (codes "client") (view item.now) place.now) }
{
    let client = needed_u32(alloc, item, "client", place)?;
    if has_number(clients, client) {
        Ok(client)
    } else {
        refuse(alloc, SceneKind::NoSuchClient, &place.member("client"))
    }
}
