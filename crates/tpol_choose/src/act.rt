// Moves that are lent, so that a policy's moves are judged without a copy.

ghost use Rattle.std.specs.Prelude.{◌≡◌};
ghost use Rattle.tpol_choose.specs.Acts.{move_of};

use crate::assert_move::AssertMove;
use crate::or_move::OrMove;
use tpol_base::{Blob, Digest32, Name};
use tpol_tree::Move;

// One policy command on a way through a policy, as `Move`.
#[derive(Clone, Copy)]
pub enum Act<'a> {
    Assert(AssertMove<'a>),
    Or(OrMove<'a>),
    Approve {
        key: &'a Name,
        policy_ref: &'a Blob,
        approved: Digest32,
        signature: Digest32,
    },
    ApproveNv {
        index: &'a Name,
        approved: Digest32,
    },
}

impl<'a> Act<'a> {
    // A move of a path, where `before` is the digest before it.
    pub fn of(act: &'a Move, before: Digest32) -> Act<'a>
        ensures { move_of result ≡ act.now }
    {
        match act {
            Move::Assert(assertion) => Act::Assert(AssertMove::new(assertion, before)),
            Move::Or(digests) => Act::Or(OrMove::new(digests.as_slice())),
            Move::Approve {
                key,
                policy_ref,
                approved,
                signature,
            } => Act::Approve {
                key,
                policy_ref,
                approved: *approved,
                signature: *signature,
            },
            Move::ApproveNv { index, approved } => Act::ApproveNv {
                index,
                approved: *approved,
            },
        }
    }
}
