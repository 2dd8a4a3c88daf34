// What one more move of a policy binds a session to.

ghost use Rattle.std.specs.Prelude.{◌≡◌, ◌++◌, ◌∷◌, [], List, None, ℕ};
ghost use Rattle.tpm_bindings.specs.Merged.{fact_of, merged};
ghost use Rattle.tpol_choose.specs.Acts.{move_of};
ghost use Rattle.tpol_choose.specs.Facts as spec;
ghost use Rattle.tpol_tree.specs.declared.facts.Fact.{Fact as OneFact};
ghost use Rattle.tpol_tree.specs.declared.path.Move.{Move as OneMove};

use crate::act::Act;
use crate::session::cp_hash_of;
use tpm_bindings::Bindings;
use tpol_base::Digest32;

// Adds what the fact of one more move binds, with this deadline.
pub fn bind_move(bindings: &mut Bindings, act: &Act<'_>, deadline: Option<u64>)
    ensures { (facts : List OneFact) → bindings.old ≡ merged facts
        → bindings.new ≡ merged (facts
        ++ fact_of 0 (move_of act.now) (spec.cp_hash_of (move_of act.now)) deadline ∷ []) }
{
    if let Act::Assert(step) = act {
        bindings.bind(step.assertion);
    }
    limit_move(bindings, cp_hash_of(act), deadline);
}

// Adds the cpHashA and the deadline of the fact of the move that was added last, where it has one of them.
fn limit_move(bindings: &mut Bindings, cp_hash: Option<Digest32>, deadline: Option<u64>)
    ensures { (facts : List OneFact) (event : ℕ) (act : OneMove)
        → bindings.old ≡ merged (facts ++ fact_of event act None None ∷ [])
        → bindings.new ≡ merged (facts ++ fact_of event act cp_hash deadline ∷ []) }
{
    match (cp_hash, deadline) {
        (None, None) => {}
        (cp_hash, deadline) => bindings.limit(cp_hash, deadline),
    }
}
