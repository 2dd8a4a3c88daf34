// The hashes of the goal's command that the facts of a session bind. The others are not made: any digest stands
// for them.

ghost use Rattle.std.specs.Option.{ForSome};
ghost use Rattle.std.specs.Prelude.{◌≡◌, IfNone, List, false};
ghost use Rattle.tpm_bindings.specs.Facts as facts;
ghost use Rattle.tpm_bindings.specs.Merged.{merged};
ghost use Rattle.tpol_choose.specs.Hashes as spec;
ghost use Rattle.tpol_goal.specs.Commands as commands;
ghost use Rattle.tpol_goal.specs.Entities.{name_in_sight};
ghost use Rattle.tpol_tree.specs.declared.facts.Fact.{Fact as OneFact};

use crate::client::Client;
use tpm_bindings::Bindings;
use tpol_base::Digest32;
use tpol_digest::zero_digest;

impl<'a> Client<'a> {
    // The cpHash, where the facts bind one.
    pub fn kept_cp_hash(&self, bindings: &Bindings) -> Option<Digest32>
        ensures hash { ForSome result (spec.IsCpHash self.now.sight.now self.now.goal.now) }
        ensures unbound { (bound : List OneFact) → bindings.now ≡ merged bound
            → IfNone result (facts.sets_cp_hash bound ≡ false) }
    {
        if !bindings.sets_cp_hash() {
            return None;
        }
        match self.cp_hash {
            Some(hash) => Some(hash),
            None => Some(self.goal.cp_hash(self.sight)),
        }
    }

    // The nameHash, where the facts bind one.
    pub fn kept_name_hash(&self, bindings: &Bindings) -> Option<Digest32>
        ensures hash { ForSome result (spec.IsNameHash self.now.sight.now self.now.goal.now) }
        ensures unbound { (bound : List OneFact) → bindings.now ≡ merged bound
            → IfNone result (facts.sets_name_hash bound ≡ false) }
    {
        if !bindings.sets_name_hash() {
            return None;
        }
        match self.name_hash {
            Some(hash) => Some(hash),
            None => Some(self.goal.name_hash(self.sight)),
        }
    }
}

// The cpHash, where the facts bind one.
pub fn bound_cp_hash(client: &Client<'_>, bindings: &Bindings) -> Digest32
    ensures { (bound : List OneFact) → bindings.now ≡ merged bound
        → facts.every_cp_hash bound result ≡ facts.every_cp_hash bound
        (commands.goal_cp_hash (name_in_sight client.now.sight.now) client.now.goal.now) }
{
    match client.kept_cp_hash(bindings) {
        Some(hash) => hash,
        None => zero_digest(),
    }
}

// The nameHash, where the facts bind one.
pub fn bound_name_hash(client: &Client<'_>, bindings: &Bindings) -> Digest32
    ensures { (bound : List OneFact) → bindings.now ≡ merged bound
        → facts.every_name_hash bound result ≡ facts.every_name_hash bound
        (commands.goal_name_hash (name_in_sight client.now.sight.now) client.now.goal.now) }
{
    match client.kept_name_hash(bindings) {
        Some(hash) => hash,
        None => zero_digest(),
    }
}
