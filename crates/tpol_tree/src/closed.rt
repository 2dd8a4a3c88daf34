//! Closed policies: every Name, digest and argument is given.

ghost use Rattle.std.specs.Prelude.{◌≡◌, IfOk};
ghost use Rattle.std.proofs.Common.{rules};

use std::alloc::Global;
use tpol_base::{Blob, Compare, Digest32, Digests, ExactClone, Name, NoMemory, Text};

/// One policy assertion with every argument given: what one policy command of TPM 2.0 Part 3 hashes into
/// policyDigest, and what it asks besides, as a cpHashA and an expiration.
#[derive(Clone, Drop)]
pub enum Assertion {
    /// PolicyPCR: the selected PCRs (bit n for PCR n), the SHA-256 of their values joined in rising order,
    /// and the values themselves, which are empty in a fact.
    Pcr {
        mask: u32,
        pcr_digest: Digest32,
        values: Digests,
    },
    /// PolicyNV: the index's Name and the comparison of its content from `offset` with `operand`.
    Nv {
        index: Name,
        operand: Blob,
        offset: u16,
        operation: Compare,
    },
    /// PolicySecret: the authorizing entity's Name, policyRef, an optional cpHashA, and the expiration in
    /// seconds (0 for none).
    Secret {
        entity: Name,
        policy_ref: Blob,
        cp_hash: Option<Digest32>,
        expiration: i32,
    },
    /// PolicySigned: the key's Name, policyRef, an optional cpHashA, and the expiration in seconds.
    Signed {
        key: Name,
        policy_ref: Blob,
        cp_hash: Option<Digest32>,
        expiration: i32,
    },
    /// PolicyCounterTimer: the comparison of the TPM's time information from `offset` with `operand`.
    CounterTimer {
        operand: Blob,
        offset: u16,
        operation: Compare,
    },
    /// PolicyCommandCode: the code of the one command that is allowed.
    CommandCode(u32),
    /// PolicyLocality: a set of localities, bit n for locality n.
    Locality(u8),
    /// PolicyCpHash: the cpHash of the one command that is allowed: the digest of its code, the Names of its handles
    /// and its parameters.
    CpHash(Digest32),
    /// PolicyNameHash: the digest of the Names of the command's handles.
    NameHash(Digest32),
    /// PolicyNvWritten: whether the index has to be written.
    NvWritten(bool),
    /// PolicyAuthValue: the entity's authorization value, proved by an HMAC.
    AuthValue,
    /// PolicyPassword: the entity's authorization value in plain.
    Password,
    /// PolicyPhysicalPresence: physical presence at the use.
    PhysicalPresence,
    /// PolicyDuplicationSelect: the Names of the object and of its new parent; `include` says whether the
    /// object's Name is part of the digest.
    Duplication {
        object: Name,
        parent: Name,
        include: bool,
    },
}

impl ExactClone for Assertion {
    ghost same = { Prim.search rules };
}

impl Assertion {
    /// A copy of this assertion.
    pub fn try_clone(&self, _alloc: Global) -> Result<Assertion, NoMemory>
        ensures { IfOk result (λ copy. copy ≡ self.now) }
    {
        Ok(self.clone()?)
    }
}

/// A policy with every Name, digest and argument given.
#[derive(Drop)]
#[cycle(closed)]
pub struct Closed {
    pub elements: ClosedElements,
}

/// A list of elements.
#[derive(Drop)]
#[cycle(closed)]
pub enum ClosedElements {
    End,
    More(Box<ClosedElement>, Box<ClosedElements>),
}

/// An element of a closed policy.
#[derive(Drop)]
#[cycle(closed)]
pub enum ClosedElement {
    /// One assertion.
    Assert(Assertion),
    /// PolicyOR over 2 to 8 branches.
    Or(ClosedBranches),
    /// PolicyAuthorize: any policy that this key approved under this policyRef.
    Authorize { key: Name, policy_ref: Blob },
    /// PolicyAuthorizeNV: the policy whose digest this index holds.
    AuthorizeNv { index: Name },
}

/// A list of branches.
#[derive(Drop)]
#[cycle(closed)]
pub enum ClosedBranches {
    End,
    More(Box<ClosedBranch>, Box<ClosedBranches>),
}

/// A branch of an OR.
#[derive(Drop)]
#[cycle(closed)]
pub struct ClosedBranch {
    pub name: Text,
    pub policy: Closed,
}
