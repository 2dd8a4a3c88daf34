ghost use Rattle.std.specs.Prelude.{◌≡◌, IfOk};
ghost use Rattle.tpol_digest.specs.Digest.{policy_digest, zero_digest};
ghost use Rattle.tpol_digest.specs.Memos.{IsMemo};

use crate::filled::FilledDocument;
use crate::same_policy::is_same_policy;
use std::alloc::Global;
use std::marker::Model;
use std::rc::Rc;
use tpol_base::{Digest32, NoMemory};
use tpol_digest::{Memo, memo_of, zero_digest};
use tpol_tree::Closed;

/// A filled policy document with its digests, each of which was computed once; documents of the same policy can share
/// them. Contracts see the document.
#[derive(Drop)]
pub struct CompiledDocument {
    filled: FilledDocument,
    memo: Rc<Memo>,
}

impl Model for CompiledDocument {
    ghost use Rattle.tpol_steps.specs.declared.filled.FilledDocument.{FilledDocument as OneDocument};
    ghost use Rattle.tpol_digest.specs.Digest.{zero_digest};
    ghost use Rattle.tpol_digest.specs.Memos.{IsMemo};
    ghost use Rattle.std.specs.Coded.{codes};
    ghost use Rattle.tpol_steps.specs.contracts.filled.FilledDocument as document;

    ghost Value = { OneDocument };

    ghost coded = { Prim.hlevel (codes, document.the_row.coded) };

    ghost view = { λ d. d.filled };

    ghost invariant = { λ d. IsMemo d.filled.closed.elements zero_digest d.memo.value };
}

impl CompiledDocument {
    /// Computes the digests of a document. It fails only where memory ran out.
    pub fn new(alloc: Global, filled: FilledDocument) -> Result<CompiledDocument, NoMemory>
        ensures { IfOk result (λ document. document ≡ filled) }
    {
        CompiledDocument::new_beside(alloc, filled, None)
    }

    /// The same, where the digests are those of the other document if that has the same policy, and computed if not.
    pub fn new_beside(
        alloc: Global,
        filled: FilledDocument,
        other: Option<&CompiledDocument>,
    ) -> Result<CompiledDocument, NoMemory>
        ensures { IfOk result (λ document. document ≡ filled) }
    {
        match memo_beside(alloc, &filled.closed, other) {
            Ok(memo) => Ok(CompiledDocument { filled, memo }),
            Err(NoMemory) => {
                drop(filled);
                Err(NoMemory)
            }
        }
    }

    /// The document.
    pub fn filled(&self) -> &FilledDocument
        ensures { result.now ≡ self.now }
    {
        &self.filled
    }

    /// The digests of its policy.
    pub fn memo(&self) -> &Memo
        ensures { IsMemo self.now.closed.elements zero_digest result.now }
    {
        self.memo.as_ref()
    }

    /// The digest of its policy.
    pub fn digest(&self) -> Digest32
        ensures { result ≡ policy_digest self.now.closed }
    {
        self.memo.last(zero_digest())
    }
}

// The digests of a policy: those of the other document if that has the same policy.
#[tactic(auto, using(crate::proofs::SameMemos::memo_of_same))]
fn memo_beside(
    alloc: Global,
    policy: &Closed,
    other: Option<&CompiledDocument>,
) -> Result<Rc<Memo>, NoMemory>
    ensures { IfOk result (λ memo. IsMemo policy.now.elements zero_digest memo.value) }
{
    match other {
        Some(other) if is_same_policy(policy, &other.filled.closed) => Ok(other.memo.clone()?),
        _ => Ok(Rc::new(alloc, memo_of(alloc, policy)?)?),
    }
}
