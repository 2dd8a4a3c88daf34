//! Ways through a policy, and approved documents.

ghost use Rattle.std.specs.Prelude.{◌≡◌, IfOk};
ghost use Rattle.std.proofs.Common.{rules};
ghost use Rattle.tpol_tree.specs.ClosedErased.{erased_document};

use crate::{Assertion, Closed, Moves, PathSteps};
use std::alloc::{AllocError, Global};
use tpol_base::{Blob, Digest32, Digests, ExactClone, Name, NoMemory, Text};

/// One policy command on the way through a policy.
#[derive(Clone, Drop)]
pub enum Move {
    /// One assertion.
    Assert(Assertion),
    /// PolicyOR with the digests of all branches.
    Or(Digests),
    /// PolicyAuthorize: the key's Name, policyRef, the approved policy's digest, and the signature over that digest and
    /// policyRef. In a fact the signature is 32 zero bytes; on an outside path so are both it and `approved`.
    Approve {
        key: Name,
        policy_ref: Blob,
        approved: Digest32,
        signature: Digest32,
    },
    /// PolicyAuthorizeNV: the index's Name and the approved policy's digest, which is 32 zero bytes on an outside path.
    ApproveNv {
        index: Name,
        approved: Digest32,
    },
}

impl ExactClone for Move {
    ghost same = { Prim.search rules };
}

impl Move {
    /// A copy of this move.
    pub fn try_clone(&self, _alloc: Global) -> Result<Move, NoMemory>
        ensures { IfOk result (λ copy. copy ≡ self.now) }
    {
        Ok(self.clone()?)
    }
}

/// One choice on a path.
#[derive(Clone, Drop)]
pub enum PathStep {
    /// A branch of an OR: its position, from 1, and its name.
    Branch { position: u32, name: Text },
    /// An approved document, by its name.
    Document(Text),
    /// An approval of a policy that no listed document has.
    Outside,
}

impl ExactClone for PathStep {
    ghost same = { Prim.search rules };
}

impl PathStep {
    /// A copy of this choice.
    pub fn try_clone(&self, _alloc: Global) -> Result<PathStep, NoMemory>
        ensures { IfOk result (λ copy. copy ≡ self.now) }
    {
        Ok(self.clone()?)
    }
}

/// One way through a policy: its choices, and its policy commands in order.
#[derive(Clone, Drop)]
pub struct Path {
    pub steps: PathSteps,
    pub moves: Moves,
    /// Whether a step is `Outside`.
    pub outside: bool,
}

impl ExactClone for Path {
    ghost same = { Prim.search rules };
}

/// Who approved a document.
#[derive(Clone, Drop)]
pub enum ApprovedBy {
    /// A key: its Name, policyRef and the signature.
    Key {
        key: Name,
        policy_ref: Blob,
        signature: Digest32,
    },
    /// An index whose content holds the document's digest.
    Index {
        index: Name,
    },
}

/// An approved document: its name without `.json`, who approved it, its closed policy and that policy's
/// digest.
#[derive(Drop)]
pub struct ApprovedDoc {
    pub document: Text,
    pub by: ApprovedBy,
    pub closed: Closed,
    pub digest: Digest32,
}

impl Clone for ApprovedDoc {
    ghost is_clone = { λ document copy. erased_document copy ≡ erased_document document };

    fn clone(&self) -> Result<ApprovedDoc, AllocError> {
        Ok(ApprovedDoc {
            document: self.document.clone()?,
            by: self.by.clone()?,
            closed: self.closed.clone()?,
            digest: self.digest,
        })
    }
}
