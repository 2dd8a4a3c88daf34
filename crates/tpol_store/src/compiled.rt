//! Approved documents with their digests.

ghost use Rattle.std.specs.List.{AllZip};
ghost use Rattle.std.specs.Prelude.{◌≡◌, ◌++◌, ◌∷◌, [], OnErr, OnOk};
ghost use Rattle.tpol_digest.specs.Digest.{zero_digest};
ghost use Rattle.tpol_digest.specs.Memos.{IsMemo};

use std::alloc::Global;
use std::marker::Model;
use tpol_base::NoMemory;
use tpol_digest::Memo;
use tpol_tree::{Approvals, ApprovedDoc};

/// An approved document with its digests. Contracts see the document.
#[derive(Drop)]
pub(crate) struct CompiledApproval {
    approved: ApprovedDoc,
    memo: Memo,
}

impl Model for CompiledApproval {
    ghost use Rattle.tpol_tree.specs.declared.path.ApprovedDoc.{ApprovedDoc as OneApproved};
    ghost use Rattle.tpol_digest.specs.Digest.{zero_digest};
    ghost use Rattle.tpol_digest.specs.Memos.{IsMemo};
    ghost use Rattle.std.specs.Coded.{codes};
    ghost use Rattle.tpol_tree.specs.contracts.path.ApprovedDoc as document;

    ghost Value = { OneApproved };

    ghost coded = { Prim.hlevel (codes, document.the_row.coded) };

    ghost view = { λ a. a.approved };

    ghost invariant = { λ a. IsMemo a.approved.closed.elements zero_digest a.memo };
}

impl CompiledApproval {
    /// This document with its digests.
    pub(crate) fn new(approved: ApprovedDoc, memo: Memo) -> CompiledApproval
        requires { IsMemo approved.closed.elements zero_digest memo }
        ensures { result ≡ approved }
    {
        CompiledApproval { approved, memo }
    }
}

/// Approved documents with the digests of each, each of which was computed once. Contracts see the documents.
#[derive(Drop)]
pub struct CompiledApprovals {
    approvals: Approvals,
    memos: Vec<Memo>,
}

impl Model for CompiledApprovals {
    ghost use Rattle.std.specs.Prelude.{List};
    ghost use Rattle.std.specs.List.{AllZip};
    ghost use Rattle.tpol_tree.specs.declared.path.ApprovedDoc.{ApprovedDoc as OneApproved};
    ghost use Rattle.tpol_digest.specs.Digest.{zero_digest};
    ghost use Rattle.tpol_digest.specs.Memos.{IsMemo};
    ghost use Rattle.std.specs.Coded.{codes};
    ghost use Rattle.tpol_tree.specs.contracts.path.ApprovedDoc as document;

    ghost Value = { List OneApproved };

    ghost coded = { Prim.hlevel (codes, document.the_row.coded) };

    ghost view = { λ a. a.approvals };

    ghost invariant = { λ a. AllZip (λ d memo. IsMemo d.closed.elements zero_digest memo) a.approvals a.memos.items };
}

impl CompiledApprovals {
    /// No documents; it takes no memory.
    pub fn new(alloc: Global) -> CompiledApprovals
        ensures { result ≡ [] }
    {
        CompiledApprovals {
            approvals: Approvals::new(alloc),
            memos: Vec::new(alloc),
        }
    }

    /// Adds a document at the end. After `NoMemory` the documents are as before.
    pub(crate) fn push(&mut self, approval: CompiledApproval) -> Result<(), NoMemory>
        ensures ok { OnOk result (self.new ≡ self.old ++ approval ∷ []) }
        ensures err { OnErr result (self.new ≡ self.old) }
    {
        let CompiledApproval { approved, memo } = approval;
        let count = self.memos.len();
        match self.memos.push(memo) {
            Ok(()) => {}
            Err(_) => {
                drop(approved);
                return Err(NoMemory);
            }
        }
        match self.approvals.push(approved) {
            Ok(()) => Ok(()),
            Err(NoMemory) => {
                self.memos.truncate(count);
                Err(NoMemory)
            }
        }
    }

    /// The documents.
    pub fn documents(&self) -> &Approvals
        ensures { result.now ≡ self.now }
    {
        &self.approvals
    }

    /// The digests of each document, in the order of the documents.
    pub fn memos(&self) -> &[Memo]
        ensures { AllZip (λ document memo. IsMemo document.closed.elements zero_digest memo)
            self.now result.now }
    {
        self.memos.as_slice()
    }
}
