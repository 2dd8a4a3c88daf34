// What the facts of a session ask of a client.

ghost use Rattle.std.specs.Prelude.{◌≡◌, List};
ghost use Rattle.tpm_bindings.specs.Merged.{merged};
ghost use Rattle.tpol_choose.specs.Hopes as spec;
ghost use Rattle.tpol_choose.specs.Lent.{client_of_lent};
ghost use Rattle.tpol_tree.specs.declared.facts.Fact.{Fact as OneFact};

use crate::client::Client;
use tpm_bindings::Bindings;

// Whether the client meets every deadline, every command code, every set of localities and physical presence
// that the facts ask for.
pub fn meets(client: &Client<'_>, bindings: &Bindings) -> bool
    ensures { (facts : List OneFact) → bindings.now ≡ merged facts
        → result ≡ spec.meets (client_of_lent client.now) facts }
{
    let sight = client.sight;
    let code = client.goal.code().number();
    bindings.is_in_time(sight.time)
        && bindings.every_code(code)
        && bindings.allows_locality(client.locality)
        && (!bindings.asks_presence() || sight.presence)
}
