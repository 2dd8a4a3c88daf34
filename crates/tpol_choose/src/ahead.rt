// What a walk through a policy has ahead of it.

ghost use Rattle.std.specs.Prelude.{◌≡◌, min};
ghost use Rattle.tpol_choose.specs.Ahead as spec;

use crate::act::Act;
use crate::assert_move::AssertMove;
use tpol_digest::{Before, count_ways_with_memo};
use tpol_tree::{ApprovedDoc, ClosedElements};

// One more than the greatest number of ways that are walked; no count goes past it.
pub const COUNTED: u64 = 65_537;

// What comes behind the branch, or the document, that is walked: the move that closes it, an assertion that may
// stand next in the list that it stands in, made to a move once for all ways, the rest of that list, with the digest
// before that rest, in which documents may be entered `levels` deep, and what comes behind that.
#[derive(Clone, Copy)]
pub enum Ahead<'a> {
    Nothing,
    After {
        act: Act<'a>,
        first: Option<AssertMove<'a>>,
        rest: &'a ClosedElements,
        before: Before<'a>,
        levels: u8,
        ahead: &'a Ahead<'a>,
    },
}

// The number of ways through what comes behind.
pub fn count_ahead(approvals: &[ApprovedDoc], ahead: &Ahead<'_>) -> u64
    requires ahead { spec.IsSoundAhead ahead.now }
    ensures { result ≡ min (spec.ways_ahead approvals.now ahead.now) 65537 }
{
    match ahead {
        Ahead::Nothing => 1,
        Ahead::After {
            rest,
            before,
            levels,
            ahead,
            ..
        } => {
            let first = count_ways_with_memo(approvals, *levels, rest, before);
            let others = count_ahead(approvals, ahead);
            first.saturating_mul(others).min(COUNTED)
        }
    }
}
