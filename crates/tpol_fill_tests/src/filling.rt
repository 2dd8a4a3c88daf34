//! Outside values: digests that a TPM gives to filled policies, and the places of refusals.

use crate::vectors::{APPROVED_UNSEAL, ENDORSEMENT_POLICY, HIGHEST_BIT_SET};
use std::alloc::Global;
use tpol_base::{Blob, Compare, NoMemory, Sequence, Text};
use tpol_digest::digest_of;
use tpol_fill::{FillFault, FillKind, fill};
use tpol_json::{Place, place_text};
use tpol_name::Sight;
use tpol_tree::{
    Branch, Branches, Element, Elements, EntityWish, IndexWish, KeyWish, PcrWish, Policy,
};

/// PolicyPCR of PCR 23 at 32 zero bytes.
const PCR_23_AT_ZERO: &[u8; 32] =
    b"\x3c\x87\xa4\xb3\xfb\x85\xeb\xee\xa5\x8c\x5f\xb3\x6a\xc2\x2d\x3f\
      \x28\x0c\xec\x27\xa9\xf6\xdd\x0f\xa2\x3b\xe9\xce\x56\x0d\xee\xc8";

/// PolicyOR of two: PolicyOR of eight times PolicyAuthValue, and PolicyAuthValue.
const ONE_OF_NINE: &[u8; 32] = b"\x7c\xa6\xb9\xb6\x27\x65\x1d\xb7\xcb\xbd\x17\x73\xc5\xad\x34\x0e\
      \xd5\xb8\xb3\x9c\xae\xae\xa7\x1f\x27\xa2\xca\x44\x59\x95\x4a\xbe";

/// What a policy in a test is made of.
enum Part {
    Secret(&'static str),
    ApprovedBy(&'static str),
    NvPath(&'static str),
    Unseal,
    AuthValue,
    Current(u32),
    /// An OR of so many branches, each with PolicyAuthValue alone.
    OneOf(u8),
}

fn one(alloc: Global, element: Element, rest: Elements) -> Result<Elements, NoMemory> {
    let first = Box::new(alloc, element)?;
    Ok(Elements::More(first, Box::new(alloc, rest)?))
}

fn branch(alloc: Global) -> Result<Branch, NoMemory> {
    let elements = one(alloc, Element::AuthValue, Elements::End)?;
    Ok(Branch {
        name: Text::from_str(alloc, "b")?,
        description: Text::new(alloc),
        elements,
    })
}

fn more(alloc: Global, branch: Branch, rest: Branches) -> Result<Branches, NoMemory> {
    let first = Box::new(alloc, branch)?;
    Ok(Branches::More(first, Box::new(alloc, rest)?))
}

fn branches(alloc: Global, count: u8) -> Result<Branches, NoMemory> {
    let mut branches = Branches::End;
    for _ in 0..count {
        branches = more(alloc, branch(alloc)?, branches)?;
    }
    Ok(branches)
}

fn nv(alloc: Global, path: &str) -> Result<Element, NoMemory> {
    let operand = Blob::from_slice(alloc, &[0x80])?;
    Ok(Element::Nv {
        index: IndexWish::Path(Text::from_str(alloc, path)?),
        operand,
        offset: 0,
        operation: Compare::BitSet,
    })
}

fn element(alloc: Global, part: &Part) -> Result<Element, NoMemory> {
    match part {
        Part::Secret(path) => Ok(Element::Secret {
            entity: EntityWish::Path(Text::from_str(alloc, path)?),
            policy_ref: Blob::new(alloc),
            cp_hash: None,
            expiration: 0,
        }),
        Part::ApprovedBy(path) => Ok(Element::Authorize {
            key: KeyWish::Path(Text::from_str(alloc, path)?),
            policy_ref: Blob::new(alloc),
        }),
        Part::NvPath(path) => nv(alloc, path),
        Part::Unseal => Ok(Element::CommandCode(0x15e)),
        Part::AuthValue => Ok(Element::AuthValue),
        Part::Current(mask) => Ok(Element::Pcr(PcrWish::Current(*mask))),
        Part::OneOf(count) => Ok(Element::Or(branches(alloc, *count)?)),
    }
}

fn policy(alloc: Global, parts: &[Part]) -> Result<Policy, NoMemory> {
    let mut elements = Elements::End;
    for part in parts.iter().rev() {
        elements = one(alloc, element(alloc, part)?, elements)?;
    }
    Ok(Policy {
        description: Text::new(alloc),
        elements,
        approvals: Sequence::new(alloc),
    })
}

// Policies, each with the digest that a TPM gives it.
static FILLED: [(&[Part], &[u8; 32]); 5] = [
    (&[Part::Secret("/HE")], ENDORSEMENT_POLICY),
    (
        &[Part::ApprovedBy("P_RSA/HS/SRK/approver"), Part::Unseal],
        APPROVED_UNSEAL,
    ),
    (&[Part::NvPath("/nv/Owner/policy")], HIGHEST_BIT_SET),
    (&[Part::Current(0x80_0000)], PCR_23_AT_ZERO),
    (&[Part::OneOf(9)], ONE_OF_NINE),
];

fn fills(alloc: Global, policy: &Policy, sight: &Sight, digest: &[u8; 32]) -> bool {
    match fill(alloc, policy, Some(sight)) {
        Ok(closed) => digest_of(&closed).bytes == *digest,
        Err(_) => false,
    }
}

fn has_digest(alloc: Global, parts: &[Part], sight: &Sight, digest: &[u8; 32]) -> bool {
    match policy(alloc, parts) {
        Ok(policy) => fills(alloc, &policy, sight, digest),
        Err(_) => false,
    }
}

/// Whether a TPM gives these policies their digests, filled in by a machine that shows this.
pub fn have_digests(alloc: Global, sight: &Sight) -> bool {
    for (parts, digest) in &FILLED {
        if !has_digest(alloc, parts, sight, digest) {
            return false;
        }
    }
    true
}

// Policies without a machine, each with its first place that has no value.
static WITHOUT_A_VALUE: [(&[Part], FillKind, &str); 4] = [
    (
        &[Part::AuthValue, Part::ApprovedBy("/k")],
        FillKind::VoidPrefix,
        "policy[1]",
    ),
    (
        &[Part::NvPath("/HE")],
        FillKind::NoSuchPath,
        "policy[0].nvPath",
    ),
    (
        &[Part::Current(0x80_0000)],
        FillKind::NoSuchPcr,
        "policy[0].currentPCRs[0]",
    ),
    (
        &[Part::AuthValue, Part::Secret("HX")],
        FillKind::NoSuchPath,
        "policy[1].objectPath",
    ),
];

fn is_at(alloc: Global, place: &Place, at: &str) -> bool {
    match place_text(alloc, place) {
        Ok(written) => written.as_str() == at,
        Err(_) => false,
    }
}

fn is_fault(alloc: Global, fault: &FillFault, wanted: FillKind, at: &str) -> bool {
    match fault {
        FillFault::Bad { kind, place } => *kind == wanted && is_at(alloc, place, at),
        _ => false,
    }
}

fn refuses(alloc: Global, policy: &Policy, wanted: FillKind, at: &str) -> bool {
    match fill(alloc, policy, None) {
        Ok(_) => false,
        Err(fault) => is_fault(alloc, &fault, wanted, at),
    }
}

fn is_refused(alloc: Global, parts: &[Part], wanted: FillKind, at: &str) -> bool {
    match policy(alloc, parts) {
        Ok(policy) => refuses(alloc, &policy, wanted, at),
        Err(_) => false,
    }
}

#[test]
fn first_places_without_a_value(rt: HostRuntime) {
    for (parts, wanted, at) in &WITHOUT_A_VALUE {
        assert!(rt; is_refused(rt.alloc(), parts, *wanted, at), "{at}");
    }
}
