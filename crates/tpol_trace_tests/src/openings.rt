//! Sessions that went a branch of a policy. A clash and a string of digest zero can not be made up. `docs/check` compares
//! the openings of whole scenes, as the built program prints them.

ghost use Rattle.std.specs.Prelude.{◌≡◌, ◌+◌, true, false, All, IfOk, IsTrue};
ghost use Rattle.tpol_digest.specs.Sound.{Among, IsSound, IsSoundFrom, Meets};
ghost use Rattle.tpol_tree.specs.Facts.{moves_of as moves_of_facts};
ghost use Rattle.tpol_digest.specs.Digest.{digest_of_moves, policy_digest, zero_digest};
ghost use Rattle.tpol_digest.specs.Update.{joined};
ghost use Rattle.tpol_digest.specs.WellFormed.{HasPcrDigest, IsWellFormed, IsWellFormedDocument, IsWellFormedPolicy};
ghost use Rattle.tpol_hash.specs.Sha256.{sha256_digest};
ghost use Rattle.tpol_tree.specs.Closed.{ApprovalsLead, ApprovalsLeadBranches, ApprovalsLeadElement, EachAssertion, EachAssertionOfBranches, EachAssertionOfElement};

use std::alloc::Global;
use std::test::Fail;
use tpol_base::{Blob, Digest32, Digests, Name, NoMemory, Text};
use tpol_digest::{check_paths, digest_after_move, digest_of, run_facts};
use tpol_hash::Hasher;
use tpol_trace::{Opening, opening};
use tpol_tree::{
    Approvals, ApprovedBy, ApprovedDoc, Assertion, Closed, ClosedBranch, ClosedBranches,
    ClosedElement, ClosedElements, Fact, Facts, Move,
};

// The bytes of a PolicyCommandCode update.
const POLICY_REF: [u8; 8] = [0x00, 0x00, 0x01, 0x6c, 0x00, 0x00, 0x01, 0x5e];

// The digest of a policy of a PolicyAuthValue alone, which a TPM 2.0 gave.
const AUTH_VALUE: &[u8; 32] = b"\x8f\xcd\x21\x69\xab\x92\x69\x4e\x0c\x63\x3f\x1a\xb7\x72\x84\x2b\
              \x82\x41\xbb\xc2\x02\x88\x98\x1f\xc7\xac\x1e\xdd\xc1\xfd\xdb\x0e";

// The digest in the Name of a key.
const KEY: &[u8; 32] = b"\x0f\xb3\x7b\x52\xfb\x77\xd5\x6d\x3b\x9e\xe9\xa5\x92\xe0\xbb\xfb\
              \x07\x20\xc7\x8d\x12\x3e\x8f\x63\x04\x09\x37\x79\x0a\xb7\x18\xd1";

// Digests that were computed with another SHA-256: PolicySecret of the owner with POLICY_REF; four PCRs of
// zeros; PolicyPCR of PCRs 0, 2, 4 and 7 of zeros with a PolicyAuthValue; PolicySecret of the owner with a
// PolicyCommandCode of Unseal.
const SECRET_OF_OWNER: &[u8; 32] =
    b"\xe9\x71\x5d\xae\xf5\xc1\x0e\xd8\x0d\x4c\x43\xc7\x39\x1e\xd2\x94\
              \x12\x35\xdb\xf1\xb4\x9a\x4d\xfe\x00\x06\xe2\x39\x5d\xa6\x1c\xc6";

const FOUR_ZERO_PCRS: &[u8; 32] =
    b"\x38\x72\x3a\x2e\x5e\x8a\x17\xaa\x79\x50\xdc\x00\x82\x09\x94\x4e\
              \x89\x8f\x69\xa7\xbd\x10\xa2\x3c\x83\x9d\x34\x1e\x93\x5f\xd5\xca";

const BOOT: &[u8; 32] = b"\x90\x93\x8e\x03\xc6\x35\x65\x05\xa1\x82\xcf\x9c\x16\x6d\xaa\x30\
              \xc0\xa6\x9c\x6f\x13\xf6\xbb\xca\x77\x7d\xf6\xa8\x83\xdd\xf7\xb6";

const OWNER: &[u8; 32] = b"\x51\xae\x7a\x4a\xb4\xb3\xef\xdd\xde\xd3\xe8\x78\xf9\x2b\xec\x2c\
              \x9f\x5e\x2e\x88\xb9\xc7\xe6\x7e\x1b\x22\x96\x94\xef\x4b\x90\xf2";

// The PCRs 0, 2, 4 and 7.
const BOOT_PCRS: u32 = 0x95;

const UNSEAL: u32 = 0x15e;

fn secret(alloc: Global, policy_ref: &[u8]) -> Result<Assertion, NoMemory>
    ensures { IfOk result (λ assertion. HasPcrDigest assertion) }
{
    Ok(Assertion::Secret {
        entity: Name::Handle(0x4000_0001),
        policy_ref: Blob::from_slice(alloc, policy_ref)?,
        cp_hash: None,
        expiration: 0,
    })
}

// The digest of values joined.
fn digest_of_values(values: &[Digest32]) -> Digest32
    ensures { result ≡ sha256_digest (joined values.now) }
{
    let mut hasher = Hasher::new();
    for value in values {
        hasher.put(&value.bytes);
    }
    hasher.done()
}

fn pcrs(mask: u32, values: Digests) -> Assertion
    ensures { HasPcrDigest result }
{
    Assertion::Pcr {
        mask,
        pcr_digest: digest_of_values(values.as_slice()),
        values,
    }
}

fn before(
    alloc: Global,
    element: ClosedElement,
    rest: ClosedElements,
) -> Result<ClosedElements, NoMemory>
    ensures lead { IfOk result (λ all. ApprovalsLeadElement true element → ApprovalsLead false rest
        → ApprovalsLead true all) }
    ensures behind { IfOk result (λ all. ApprovalsLeadElement false element
        → ApprovalsLead false rest → ApprovalsLead false all) }
    ensures digests { IfOk result (λ all. EachAssertionOfElement HasPcrDigest element
        → EachAssertion HasPcrDigest rest → EachAssertion HasPcrDigest all) }
{
    Ok(ClosedElements::More(Box::new(alloc, element)?, Box::new(alloc, rest)?))
}

// A branch before others.
fn branch_before(
    alloc: Global,
    name: &str,
    elements: ClosedElements,
    rest: ClosedBranches,
) -> Result<ClosedBranches, NoMemory>
    ensures lead { IfOk result (λ all. ApprovalsLead true elements → ApprovalsLeadBranches true rest
        → ApprovalsLeadBranches true all) }
    ensures digests { IfOk result (λ all. EachAssertion HasPcrDigest elements
        → EachAssertionOfBranches HasPcrDigest rest → EachAssertionOfBranches HasPcrDigest all) }
{
    let branch = ClosedBranch {
        name: Text::from_str(alloc, name)?,
        policy: Closed { elements },
    };
    Ok(ClosedBranches::More(Box::new(alloc, branch)?, Box::new(alloc, rest)?))
}

// An OR of two branches of these names.
fn either(
    alloc: Global,
    names: [&str; 2],
    first: ClosedElements,
    second: ClosedElements,
) -> Result<ClosedElement, NoMemory>
    ensures lead { IfOk result (λ element. ApprovalsLead true first → ApprovalsLead true second
        → ApprovalsLeadElement true element) }
    ensures digests { IfOk result (λ element. EachAssertion HasPcrDigest first
        → EachAssertion HasPcrDigest second → EachAssertionOfElement HasPcrDigest element) }
{
    let last = branch_before(alloc, names[1], second, ClosedBranches::End)?;
    Ok(ClosedElement::Or(branch_before(alloc, names[0], first, last)?))
}

fn is_same(a: &Digest32, b: &Digest32) -> bool
    ensures { IsTrue result → a.now ≡ b.now }
{
    a.bytes == b.bytes
}

fn is_among(digest: &Digest32, digests: &[Digest32]) -> bool
    ensures { IsTrue result → Among digest.now digests.now }
{
    match digests.split_first() {
        None => false,
        Some((first, rest)) => is_same(digest, first) || is_among(digest, rest),
    }
}

fn meets(before: &Digest32, act: &Move) -> bool
    ensures { IsTrue result → Meets before.now act.now }
{
    match act {
        Move::Assert(_) => true,
        Move::Or(digests) => is_among(before, digests.as_slice()),
        Move::Approve { approved, .. } | Move::ApproveNv { approved, .. } => is_same(
            before, approved,
        ),
    }
}

fn are_sound(facts: &[Fact], before: Digest32) -> bool
    ensures { IsTrue result → IsSoundFrom before (moves_of_facts facts.now) }
{
    match facts.split_first() {
        None => true,
        Some((fact, rest)) => {
            meets(&before, &fact.act) && are_sound(rest, digest_after_move(before, &fact.act))
        }
    }
}

fn zero() -> Digest32
    ensures { result ≡ zero_digest }
{
    Digest32::ZERO
}

fn is_sound(facts: &Facts) -> bool
    ensures { IsTrue result → IsSound (moves_of_facts facts.now) }
{
    are_sound(facts.as_slice(), zero())
}

fn lead_to(facts: &Facts, policy: &Closed) -> bool
    ensures { IsTrue result → digest_of_moves (moves_of_facts facts.now)
        ≡ policy_digest policy.now }
{
    is_same(&run_facts(facts), &digest_of(policy))
}

fn fact(event: u32, act: Move) -> Fact {
    Fact {
        event,
        act,
        cp_hash: None,
        deadline: None,
    }
}

// Whether this path was found, with these event numbers.
fn is_branch(found: Result<Opening, NoMemory>, number: u32, numbers: &[u32]) -> bool {
    match found {
        Ok(Opening::Branch { path, events }) => path == number && events.as_slice() == numbers,
        _ => false,
    }
}

// Whether the facts open this path, with these event numbers.
fn open(
    alloc: Global,
    policy: &Closed,
    approvals: &Approvals,
    facts: &Facts,
    number: u32,
    numbers: &[u32],
) -> bool
    requires well_formed { IsWellFormed policy.now approvals.now }
{
    check_paths(policy, approvals).is_ok()
        && is_sound(facts)
        && lead_to(facts, policy)
        && is_branch(opening(alloc, policy, approvals, facts), number, numbers)
}

// The same of facts that were made, if they were.
fn opens(
    alloc: Global,
    policy: &Closed,
    approvals: &Approvals,
    facts: Result<Facts, NoMemory>,
    number: u32,
    numbers: &[u32],
) -> bool
    requires well_formed { IsWellFormed policy.now approvals.now }
{
    match facts {
        Ok(facts) => {
            let answer = open(alloc, policy, approvals, &facts, number, numbers);
            drop(facts);
            answer
        }
        Err(_) => false,
    }
}

// An OR of two branches, as a policy.
fn policy_of_two(
    alloc: Global,
    names: [&str; 2],
    first: ClosedElements,
    second: ClosedElements,
) -> Result<Closed, NoMemory>
    ensures lead { IfOk result (λ policy. ApprovalsLead true first → ApprovalsLead true second
        → ApprovalsLead true policy.elements) }
    ensures digests { IfOk result (λ policy. EachAssertion HasPcrDigest first
        → EachAssertion HasPcrDigest second → EachAssertion HasPcrDigest policy.elements) }
{
    let or = either(alloc, names, first, second)?;
    Ok(Closed {
        elements: before(alloc, or, ClosedElements::End)?,
    })
}

// One assertion.
fn one(alloc: Global, assertion: Assertion) -> Result<ClosedElements, NoMemory>
    ensures lead { IfOk result (λ all. ApprovalsLead true all) }
    ensures digests { IfOk result (λ all. HasPcrDigest assertion → EachAssertion HasPcrDigest all) }
{
    before(alloc, ClosedElement::Assert(assertion), ClosedElements::End)
}

// Two assertions.
fn two(alloc: Global, first: Assertion, second: Assertion) -> Result<ClosedElements, NoMemory>
    ensures lead { IfOk result (λ all. ApprovalsLead true all) }
    ensures digests { IfOk result (λ all. HasPcrDigest first → HasPcrDigest second
        → EachAssertion HasPcrDigest all) }
{
    let rest = before(alloc, ClosedElement::Assert(second), ClosedElements::End)?;
    before(alloc, ClosedElement::Assert(first), rest)
}

fn two_digests(alloc: Global, first: Digest32, second: Digest32) -> Result<Digests, NoMemory> {
    let mut digests = Digests::new(alloc);
    digests.push(first)?;
    digests.push(second)?;
    Ok(digests)
}

// A PolicySecret whose policyRef is the bytes of a PolicyCommandCode update, or the authorization value.
fn reference(alloc: Global) -> Result<Closed, NoMemory>
    ensures { IfOk result (λ policy. IsWellFormedPolicy policy) }
{
    let first = one(alloc, secret(alloc, &POLICY_REF)?)?;
    let second = one(alloc, Assertion::AuthValue)?;
    policy_of_two(alloc, ["a", "b"], first, second)
}

fn reference_digests(alloc: Global) -> Result<Digests, NoMemory> {
    let secret_of_owner = Digest32 {
        bytes: *SECRET_OF_OWNER,
    };
    two_digests(alloc, secret_of_owner, Digest32 { bytes: *AUTH_VALUE })
}

// That PolicySecret, and then the OR.
fn reference_facts(alloc: Global) -> Result<Facts, NoMemory> {
    let digests = reference_digests(alloc)?;
    let secret = secret(alloc, &POLICY_REF)?;
    let mut facts = Facts::new(alloc)?;
    facts.push(fact(2, Move::Assert(secret)));
    facts.push(fact(3, Move::Or(digests)));
    Ok(facts)
}

#[test]
fn policy_ref_like_a_command_code(rt: HostRuntime) -> Result<(), Fail> {
    let policy = reference(rt.alloc())?;
    let approvals = Approvals::new(rt.alloc());
    let facts = reference_facts(rt.alloc());
    let answer = opens(rt.alloc(), &policy, &approvals, facts, 1, &[2, 3]);
    drop(policy);
    drop(approvals);
    assert!(rt; answer);
    Ok(())
}

// The values of four PCRs and the authorization value, or the owner's secret for an Unseal.
fn disk(alloc: Global) -> Result<Closed, NoMemory>
    ensures { IfOk result (λ policy. IsWellFormedPolicy policy) }
{
    let values = Digests::from_slice(alloc, &[Digest32::ZERO; 4])?;
    let boot = two(alloc, pcrs(BOOT_PCRS, values), Assertion::AuthValue)?;
    let owner = two(alloc, secret(alloc, &[])?, Assertion::CommandCode(UNSEAL))?;
    policy_of_two(alloc, ["boot", "owner"], boot, owner)
}

fn disk_digests(alloc: Global) -> Result<Digests, NoMemory> {
    two_digests(alloc, Digest32 { bytes: *BOOT }, Digest32 { bytes: *OWNER })
}

fn boot_facts(alloc: Global) -> Result<Facts, NoMemory> {
    let digests = disk_digests(alloc)?;
    let mut facts = Facts::new(alloc)?;
    let boot_pcrs = Assertion::Pcr {
        mask: BOOT_PCRS,
        pcr_digest: Digest32 {
            bytes: *FOUR_ZERO_PCRS,
        },
        values: Digests::new(alloc),
    };
    facts.push(fact(2, Move::Assert(boot_pcrs)));
    facts.push(fact(3, Move::Assert(Assertion::AuthValue)));
    facts.push(fact(4, Move::Or(digests)));
    Ok(facts)
}

#[test]
fn disk_by_its_first_branch(rt: HostRuntime) -> Result<(), Fail> {
    let policy = disk(rt.alloc())?;
    let approvals = Approvals::new(rt.alloc());
    let facts = boot_facts(rt.alloc());
    let answer = opens(rt.alloc(), &policy, &approvals, facts, 1, &[2, 3, 4]);
    drop(policy);
    drop(approvals);
    assert!(rt; answer);
    Ok(())
}

fn approver() -> Name {
    Name::Hash(Digest32 { bytes: *KEY })
}

// A document of one assertion that the key approved.
fn approved(alloc: Global, name: &str, assertion: Assertion) -> Result<ApprovedDoc, NoMemory>
    ensures { IfOk result (λ document. HasPcrDigest assertion → IsWellFormedDocument document) }
{
    let closed = Closed {
        elements: one(alloc, assertion)?,
    };
    let digest = digest_of(&closed);
    let by = ApprovedBy::Key {
        key: approver(),
        policy_ref: Blob::new(alloc),
        signature: Digest32 { bytes: [0xa5; 32] },
    };
    Ok(ApprovedDoc {
        document: Text::from_str(alloc, name)?,
        by,
        closed,
        digest,
    })
}

// The value of PCR 0, and the authorization value in its place.
fn versions(alloc: Global) -> Result<Approvals, NoMemory>
    ensures { IfOk result (λ approvals. All IsWellFormedDocument approvals) }
{
    let values = Digests::from_slice(alloc, &[Digest32 { bytes: [0xff; 32] }])?;
    let mut approvals = Approvals::new(alloc);
    approvals.push(approved(alloc, "v1", pcrs(1, values))?)?;
    approvals.push(approved(alloc, "v2", Assertion::AuthValue)?)?;
    Ok(approvals)
}

// Whatever the key approves.
fn base(alloc: Global) -> Result<Closed, NoMemory>
    ensures { IfOk result (λ policy. IsWellFormedPolicy policy) }
{
    let authorize = ClosedElement::Authorize {
        key: approver(),
        policy_ref: Blob::new(alloc),
    };
    Ok(Closed {
        elements: before(alloc, authorize, ClosedElements::End)?,
    })
}

// The authorization value, and its approval by the key.
fn approved_facts(alloc: Global) -> Result<Facts, NoMemory> {
    let mut facts = Facts::new(alloc)?;
    let approve = Move::Approve {
        key: approver(),
        policy_ref: Blob::new(alloc),
        approved: Digest32 { bytes: *AUTH_VALUE },
        signature: Digest32::ZERO,
    };
    facts.push(fact(2, Move::Assert(Assertion::AuthValue)));
    facts.push(fact(4, approve));
    Ok(facts)
}

#[test]
fn second_approved_document(rt: HostRuntime) -> Result<(), Fail> {
    let policy = base(rt.alloc())?;
    let approvals = versions(rt.alloc())?;
    let facts = approved_facts(rt.alloc());
    let answer = opens(rt.alloc(), &policy, &approvals, facts, 2, &[2, 4]);
    drop(policy);
    drop(approvals);
    assert!(rt; answer);
    Ok(())
}
