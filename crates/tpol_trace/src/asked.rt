// What is kept of a move, so that it can be compared with others: what it hashes, and what it approves.

ghost use Rattle.std.specs.Prelude.{◌≡◌, IfOk, Some, None};
ghost use Rattle.tpol_digest.specs.Update.{update_of};
ghost use Rattle.tpol_digest.specs.UpdateBytes.{update_value};
ghost use Rattle.tpol_trace.specs.Same.{approved_of, is_same_move, same_update, same_digest, same_string};
ghost use Rattle.tpol_trace.specs.Tables.{Asks};
ghost use Rattle.tpol_tree.specs.declared.path.Move.{Move as OneMove};

use std::alloc::Global;
use tpol_base::{Blob, Digest32, NoMemory};
use tpol_digest::{UpdateBytes, update_of_move};
use tpol_tree::Move;

// What a move hashes, and the digest that it approves if it is an approval.
#[derive(Drop)]
pub struct Asked {
    pub update: UpdateBytes,
    pub approved: Option<Digest32>,
}

impl Asked {
    // What is kept of a move.
    pub fn of_move(alloc: Global, act: &Move) -> Result<Asked, NoMemory>
        ensures { IfOk result (λ asked. Asks asked act.now) }
    {
        Ok(Asked {
            update: update_of_move(alloc, act)?,
            approved: approved_of(act),
        })
    }

    // What is kept of a move that approves nothing.
    pub fn not_approving(update: UpdateBytes) -> Asked
        ensures asks { (act : OneMove) → update_value update ≡ update_of act
            → approved_of act ≡ None → Asks result act }
        ensures update { result.update ≡ update }
    {
        Asked {
            update,
            approved: None,
        }
    }

    // What is kept of the approval of a digest.
    pub fn approving(update: UpdateBytes, approved: Digest32) -> Asked
        ensures { (act : OneMove) → update_value update ≡ update_of act
            → approved_of act ≡ Some approved → Asks result act }
    {
        Asked {
            update,
            approved: Some(approved),
        }
    }

    // Whether this is the approval of a digest.
    pub fn approves(&self, digest: &Digest32) -> bool
        ensures { result ≡ same_digest self.now.approved (Some digest.now) }
    {
        match &self.approved {
            None => false,
            Some(approved) => approved.bytes == digest.bytes,
        }
    }

    // Whether the two moves are the same.
    pub fn is_same(&self, other: &Asked) -> bool
        ensures { (act fact : OneMove) → Asks self.now act → Asks other.now fact
            → result ≡ is_same_move act fact }
    {
        self.hashes_the_same(other) && same_digest(&self.approved, &other.approved)
    }

    // Whether the two moves hash the same.
    pub fn hashes_the_same(&self, other: &Asked) -> bool
        ensures { result ≡ same_update (update_value self.now.update)
            (update_value other.now.update) }
    {
        let (a, b) = (&self.update, &other.update);
        a.fresh == b.fresh
            && a.code == b.code
            && same_string(&a.inner, &b.inner)
            && a.rest.as_slice() == b.rest.as_slice()
            && same_string(&a.policy_ref, &b.policy_ref)
    }
}

// The digest that an approval approves.
fn approved_of(act: &Move) -> Option<Digest32>
    ensures { result ≡ approved_of act.now }
{
    match act {
        Move::Assert(_) | Move::Or(_) => None,
        Move::Approve { approved, .. } | Move::ApproveNv { approved, .. } => Some(*approved),
    }
}

fn same_string(a: &Option<Blob>, b: &Option<Blob>) -> bool
    ensures { result ≡ same_string a.now b.now }
{
    match a {
        None => b.is_none(),
        Some(a) => match b {
            None => false,
            Some(b) => a.as_slice() == b.as_slice(),
        },
    }
}

fn same_digest(a: &Option<Digest32>, b: &Option<Digest32>) -> bool
    ensures { result ≡ same_digest a.now b.now }
{
    match a {
        None => b.is_none(),
        Some(a) => match b {
            None => false,
            Some(b) => a.bytes == b.bytes,
        },
    }
}
