//! What is wrong in a policy document, and where.

use tpol_json::{Fault, Includes, MemberKind, Place};

/// What is wrong in a policy document, numbered from 1 in this order.
#[derive(Clone, Copy, Debug, PartialEq, Eq)]
pub enum PolicyKind {
    /// The bytes are no JSON text.
    NotJson = 1,
    /// A member that is needed is not there.
    Missing,
    /// A value of another JSON kind than its member has.
    WrongKind,
    /// Bytes that are not written in hexadecimal, or of a wrong length, or no Name.
    BadHex,
    /// A number outside its limits, another text in its place, or a list of a wrong length.
    BadNumber,
    /// A type that no element, authorization or public area has.
    UnknownType,
    /// POLICYTEMPLATE and POLICYACTION.
    Unsupported,
    /// An asymmetric key.
    AsymmetricKey,
    /// A hash algorithm other than SHA-256.
    OtherHash,
    /// An OR of fewer than 2 or more than 64 branches.
    BranchCount,
    /// A list without elements.
    EmptyPolicy,
    /// An OR inside sixteen others.
    TooDeep,
    /// An element past the 1,024th, or an authorization past the eighth.
    TooMany,
    /// A second one of members of which one is wanted, or of a PCR.
    Twice,
}

/// Why a policy document is refused.
#[derive(Drop)]
pub enum PolicyFault {
    /// The bytes are no JSON text.
    NotJson,
    /// The first fault in reading order.
    Bad { kind: PolicyKind, place: Place },
    /// Memory ran out.
    NoMemory,
}

/// Why a part of a policy document is refused: the first fault in reading order.
pub type ElementFault = Fault<PolicyKind>;

impl Includes<MemberKind> for PolicyKind {
    ghost use Rattle.tpol_members.specs.Faults.{kind_of};

    ghost kind_of = { kind_of };

    fn of_kind(kind: MemberKind) -> PolicyKind {
        match kind {
            MemberKind::Missing => PolicyKind::Missing,
            MemberKind::WrongKind => PolicyKind::WrongKind,
            MemberKind::BadHex => PolicyKind::BadHex,
            MemberKind::BadNumber => PolicyKind::BadNumber,
            MemberKind::Twice => PolicyKind::Twice,
            MemberKind::TooMany => PolicyKind::TooMany,
        }
    }
}
