// Whether a path can be gone.

ghost use Rattle.std.specs.Prelude.{◌≡◌, ◌≤◌, ◌^◌, length, IfOk, Option};
ghost use Rattle.tpm_bindings.specs.State.{SessionState};
ghost use Rattle.tpm_rules.specs.Rule.{Breaks};
ghost use Rattle.tpm_rules.specs.Standing.{standing_of};
ghost use Rattle.tpol_choose.specs.declared.block.Why.{Why as OneWhy};
ghost use Rattle.tpol_choose.specs.Blocks as spec;
ghost use Rattle.tpol_choose.specs.Facts as facts;
ghost use Rattle.tpol_choose.specs.Lent.{client_of_lent};
ghost use Rattle.tpol_choose.specs.Moves.{move_block};
ghost use Rattle.tpol_name.specs.Setups.{IsSight};

use crate::act::Act;
use crate::client::Client;
use crate::goal::check_goal;
use crate::moves::check_move;
use crate::session::{add_move, fresh_session};
use crate::{Block, Why};
use tpm_rules::Standing;
use tpol_goal::{Goal, Grants};
use tpol_name::Sight;
use tpol_tree::{Move, Path};

/// Whether a client can go a path on a machine as the sight shows it, with what it is granted, to the goal
/// and from this locality. The error is the first thing that stands in the way: that the path is by a policy
/// that no listed document has; that no session is free; move after move an entity that is not there, a key
/// that is not granted, or the machine's answer to the move's command, by the rules of TPM 2.0 Part 3; and
/// last the goal, where a policy session may not authorize it, where it breaks a deferred check (TPM 2.0
/// Part 1, "Policy Session Use"), or a rule of its own.
///
/// A session that started now would keep each move as a fact, with the deadlines from now on; PolicySecret
/// counts with the Name that its entity has as it is. An HMAC with a granted value or key is right where its
/// key has the block of the kept one; that of the goal, unless the value is empty, is wrong too where the
/// entity is an index that is not written, since it is made over the Name of the written index.
///
/// A goal whose entity the sight does not show is `NoEntity` at 0. It takes no memory.
pub fn can(
    path: &Path,
    sight: &Sight,
    grants: &Grants,
    goal: &Goal,
    locality: u8,
) -> Result<(), Block>
    requires sight { IsSight sight.now }
    requires moves { length path.now.moves ≤ 512 }
    ensures block { Breaks result
        (spec.first_block path.now sight.now grants.now goal.now locality) }
{
    let client = Client::new(sight, grants, goal, locality);
    check_path(&client, path)
}

fn check_path(client: &Client<'_>, path: &Path) -> Result<(), Block>
    requires sight { IsSight client.now.sight.now }
    requires moves { length path.now.moves ≤ 512 }
    ensures { Breaks result (spec.block_on (client_of_lent client.now) path.now) }
{
    check_whole(client.sight, path.outside)?;
    check_moves(client, path.moves.as_slice())
}

// That the path is not outside, and that a session is free.
pub fn check_whole(sight: &Sight, outside: bool) -> Result<(), Block>
    ensures { Breaks result (spec.whole_block sight.now outside) }
{
    if outside {
        return Err(Block {
            at: 0,
            why: Why::Outside,
        });
    }
    if sight.free_sessions == 0 {
        return Err(Block {
            at: 0,
            why: Why::NoSession,
        });
    }
    Ok(())
}

// Move after move, and then the goal.
fn check_moves(client: &Client<'_>, moves: &[Move]) -> Result<(), Block>
    requires sight { IsSight client.now.sight.now }
    requires moves { length moves.now ≤ 512 }
    ensures { Breaks result (spec.moves_block (client_of_lent client.now) 1
        (facts.fresh_session client.now.sight.now) moves.now) }
{
    let mut session = fresh_session(client.sight);
    for (index, act) in moves.iter().enumerate() {
        session = make_move(client, &session, index as u32 + 1, act)?;
    }
    at(0, check_goal(client, &session))
}

// The session with one more move, where nothing stands in its way.
fn make_move(
    client: &Client<'_>,
    session: &Standing,
    number: u32,
    act: &Move,
) -> Result<Standing, Block>
    requires sight { IsSight client.now.sight.now }
    requires start { session.now.start ≤ 2 ^ 63 }
    ensures block { (state : SessionState) → session.now ≡ standing_of state
        → Breaks result (spec.block_of number
        (move_block (client_of_lent client.now) state act.now)) }
    ensures after { (state : SessionState) → session.now ≡ standing_of state
        → IfOk result (λ after. after
        ≡ standing_of (facts.session_after client.now.sight.now state act.now)) }
{
    let lent = Act::of(act, session.digest);
    at(number, check_move(client, session, &lent))?;
    let mut after = *session;
    add_move(&mut after, client.sight, &lent);
    Ok(after)
}

// What stands in the way here.
pub fn at(number: u32, outcome: Result<(), Why>) -> Result<(), Block>
    ensures { (why : Option OneWhy) → Breaks outcome why
        → Breaks result (spec.block_of number why) }
{
    match outcome {
        Ok(()) => Ok(()),
        Err(why) => Err(Block { at: number, why }),
    }
}
