//! Policies as they are written.

use crate::{ApprovalWishes, EntityWish, IndexWish, KeyWish, NamesWish, ParentWish, PcrWish};
use tpol_base::{Blob, Compare, Digest32, Name, Text};

/// A policy document as it is written (TCG TSS 2.0 JSON Data Types and Policy Language, TPMS_POLICY).
#[derive(Drop)]
pub struct Policy {
    pub description: Text,
    pub elements: Elements,
    pub approvals: ApprovalWishes,
}

/// A branch of an OR (TPMS_POLICYBRANCH).
#[derive(Drop)]
#[cycle(policy)]
pub struct Branch {
    pub name: Text,
    pub description: Text,
    pub elements: Elements,
}

/// A list of branches.
#[derive(Drop)]
#[cycle(policy)]
pub enum Branches {
    End,
    More(Box<Branch>, Box<Branches>),
}

/// A list of elements.
#[derive(Drop)]
#[cycle(policy)]
pub enum Elements {
    End,
    More(Box<Element>, Box<Elements>),
}

/// An element of a policy document. Lengths: policyRef and operand at most 64 bytes.
#[derive(Drop)]
#[cycle(policy)]
pub enum Element {
    /// POLICYOR: 2 to 64 branches; more than 8 become groups when the policy is filled.
    Or(Branches),
    /// POLICYPCR.
    Pcr(PcrWish),
    /// POLICYNV.
    Nv {
        index: IndexWish,
        operand: Blob,
        offset: u16,
        operation: Compare,
    },
    /// POLICYSECRET; `expiration` in seconds.
    Secret {
        entity: EntityWish,
        policy_ref: Blob,
        cp_hash: Option<Digest32>,
        expiration: i32,
    },
    /// POLICYSIGNED; `expiration` in seconds.
    Signed {
        key: KeyWish,
        policy_ref: Blob,
        cp_hash: Option<Digest32>,
        expiration: i32,
    },
    /// POLICYAUTHORIZE.
    Authorize {
        key: KeyWish,
        policy_ref: Blob,
    },
    /// POLICYAUTHORIZENV.
    AuthorizeNv {
        index: IndexWish,
    },
    /// POLICYLOCALITY: a set of localities, 1 to 31, bit n for locality n.
    Locality(u8),
    /// POLICYCOMMANDCODE.
    CommandCode(u32),
    /// POLICYCPHASH.
    CpHash(Digest32),
    /// POLICYNAMEHASH.
    NameHash(NamesWish),
    /// POLICYCOUNTERTIMER.
    CounterTimer {
        operand: Blob,
        offset: u16,
        operation: Compare,
    },
    /// POLICYDUPLICATIONSELECT.
    Duplication {
        object: Name,
        parent: ParentWish,
        include: bool,
    },
    /// POLICYNVWRITTEN.
    NvWritten(bool),
    /// POLICYAUTHVALUE.
    AuthValue,
    /// POLICYPASSWORD.
    Password,
    /// POLICYPHYSICALPRESENCE.
    PhysicalPresence,
}
