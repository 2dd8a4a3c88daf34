//! Digests that a TPM 2.0 and a FAPI gave for the same policies, and lists of paths. `docs/check` compares more such
//! digests, those of `examples/measured.tsv`, as the built program prints them.

use std::alloc::Global;
use tpol_base::{Blob, Compare, Digest32, Digests, Name, NoMemory, Text};
use tpol_digest::{
    PathLimit, check_paths, count_paths, digest_of, extend, inputs_of, inputs_of_facts, path_at,
    run_facts,
};
use tpol_hash::{Inputs, hash};
use tpol_tree::{
    Approvals, ApprovedBy, ApprovedDoc, Assertion, Closed, ClosedBranch, ClosedBranches,
    ClosedElement, ClosedElements, Fact, Facts, Move, Path, PathStep,
};

const OWNER: Name = Name::Handle(0x4000_0001);

const ENDORSEMENT: Name = Name::Handle(0x4000_000b);

// The digests of policies that a TPM 2.0 gave, named after their assertions.
const AUTH_VALUE: &[u8; 32] = b"\x8f\xcd\x21\x69\xab\x92\x69\x4e\x0c\x63\x3f\x1a\xb7\x72\x84\x2b\
              \x82\x41\xbb\xc2\x02\x88\x98\x1f\xc7\xac\x1e\xdd\xc1\xfd\xdb\x0e";

const SECRET_OWNER: &[u8; 32] = b"\x0d\x84\xf5\x5d\xaf\x6e\x43\xac\x97\x96\x6e\x62\xc9\xbb\x98\x9d\
              \x33\x97\x77\x7d\x25\xc5\xf7\x49\x86\x80\x55\xd6\x53\x94\xf9\x52";

const SECRET_REF: &[u8; 32] = b"\xd2\x17\x96\x90\x86\xdb\x4b\x5e\x5b\xd1\xe6\x9a\xb1\xf8\x69\x96\
              \x36\xe9\x57\x8a\x83\x45\xf6\x15\x8b\xe4\xdd\xbb\x04\x1d\x43\x77";

const CODE_DUPLICATE: &[u8; 32] =
    b"\xbe\xf5\x6b\x8c\x1c\xc8\x4e\x11\xed\xd7\x17\x52\x8d\x2c\xd9\x93\
              \x56\xbd\x2b\xbf\x8f\x01\x52\x09\xc3\xf8\x4a\xee\xab\xa8\xe8\xa2";

const COUNTER_TIMER: &[u8; 32] = b"\x20\xda\xd6\x45\x5a\x6b\xa8\x86\xdc\x79\x38\xf1\x0b\x9b\xde\x80\
              \x1d\x59\xe0\x8f\x80\x13\xf4\xff\x5a\x23\x5f\x2b\x80\xb5\x2d\x11";

const CP_HASH: &[u8; 32] = b"\xce\x72\x83\x3f\xb0\x7c\xb3\x30\x16\x36\xcd\xa2\xca\x02\xf2\xc6\
              \x21\x7b\xf5\xda\xe7\xc5\xa3\xce\xda\x86\xa5\x88\xfa\xea\x5c\xb1";

const LOCALITY_0_3: &[u8; 32] = b"\x12\x60\x9c\x6a\x0e\x15\x86\x70\x02\x70\x07\x9a\x09\xbe\x09\xdf\
              \xd3\x76\xaf\x86\xcc\x4c\x59\x02\x33\xa5\x5d\xc0\x27\x5d\x87\x4e";

const NV: &[u8; 32] = b"\xbf\x3b\x68\x99\xa0\x4b\x37\x17\x3e\x68\xb0\x74\x52\x01\x33\x81\
              \xbc\x01\x68\x52\x31\x81\xd5\xf9\xfc\xd2\xf4\x4a\xc2\x2b\xa7\xdd";

const PCR_0: &[u8; 32] = b"\xab\x36\x7c\x16\x98\xdb\xea\x75\x97\xab\x1f\x55\xea\x60\xcc\xc6\
              \x04\xad\xd2\xe0\x6a\x40\x83\x9a\x02\x9b\x9d\x51\x85\x56\x99\xa6";

const PCR_8: &[u8; 32] = b"\x2a\x90\xac\x03\x19\x65\x73\xf1\x29\xe7\x0a\x9e\x04\x48\x5b\xff\
              \x58\x1d\x28\x90\xfe\x58\x82\xd3\xc2\x66\x72\x90\xd8\x4b\x49\x7b";

const OR_OF_INDEX: &[u8; 32] = b"\xca\x3d\x0a\x99\xa2\xb9\x39\x06\xf7\xa3\x34\x24\x14\xef\xcf\xb3\
              \xa3\x85\xd4\x4c\xd1\xfd\x45\x90\x89\xd1\x9b\x50\x71\xc0\xb7\xa0";

const OR_BEHIND: &[u8; 32] = b"\xad\x58\xf8\x86\xe7\x95\x09\x10\xe3\x4b\x95\x24\x93\xd1\xc9\xee\
              \x06\x39\xe4\xaa\x31\xc0\xc2\x01\x36\x0a\x41\xbc\xd3\x80\xeb\x96";

const TWO_STAGES: &[u8; 32] = b"\x99\xc5\x4c\xba\xa2\xe2\x6a\x73\x3c\x27\x93\x05\x58\x87\xea\xb0\
              \xeb\xb5\x75\xf9\x84\xab\x79\x7a\x94\xc4\x3e\x10\x38\xb1\xfc\x78";

// Digests that were computed with another SHA-256, from what TPM 2.0 Part 3 says that each command hashes.
const SIGNED: &[u8; 32] = b"\x59\xb1\x0d\xa7\x40\x9c\x82\xf5\x96\xda\x99\x02\x33\x92\x51\x32\
              \xa4\xb3\x78\xac\x21\xa2\xa1\x75\x46\x88\xd8\xa5\xfe\x4b\x50\x46";

const NAME_HASH: &[u8; 32] = b"\xfa\xf9\x00\x25\xf8\x5f\xf3\xda\x6a\xd2\x69\xad\xb2\x6b\x4e\xa2\
              \x3f\x87\x4f\x27\xed\x87\x85\xa5\x0c\x50\xa5\x27\x6b\xa9\x8c\x00";

const DUPLICATION_OF_OBJECT: &[u8; 32] =
    b"\xc1\x12\xfd\x98\x8c\xa1\xf5\xfb\x36\xc7\x38\x9b\xc7\x54\xc6\x28\
              \xc9\x8b\x6b\xe9\x6f\xd4\xd5\xe9\x43\x75\x38\x92\x3b\x6e\x61\x04";

const DUPLICATION_TO_PARENT: &[u8; 32] =
    b"\xc8\x8b\x65\x09\x61\x6e\x64\xe7\x2c\x9a\xe3\x83\x87\xad\xb8\xeb\
              \x2c\xd1\x23\x07\xcb\xde\x0f\x8b\xe3\x94\x6d\x19\x8e\x72\xd3\x15";

const NV_NOT_WRITTEN: &[u8; 32] =
    b"\x3c\x32\x63\x23\x67\x0e\x28\xad\x37\xbd\x57\xf6\x3b\x4c\xc3\x4d\
              \x26\xab\x20\x5e\xf2\x2f\x27\x5c\x58\xd4\x7f\xab\x24\x85\x46\x6e";

// The digests of the first string of a PolicySecret of the owner, and of the second one with POLICY_REF.
const OWNER_FIRST: &[u8; 32] = b"\x47\x8c\xf7\x94\xda\x0e\x05\x31\xf4\x11\x73\x44\x27\x7d\x77\xd0\
              \x86\x25\x90\x43\xf0\x37\xb6\xd6\x7f\x63\xb1\x32\xa0\x8b\xfc\x27";

const OWNER_THEN_REF: &[u8; 32] =
    b"\xe9\x71\x5d\xae\xf5\xc1\x0e\xd8\x0d\x4c\x43\xc7\x39\x1e\xd2\x94\
              \x12\x35\xdb\xf1\xb4\x9a\x4d\xfe\x00\x06\xe2\x39\x5d\xa6\x1c\xc6";

// The digests of the Names of an index and of a key.
const INDEX: &[u8; 32] = b"\x0c\x9d\x71\x7e\x9c\x3f\xe6\x9f\xda\x41\x76\x94\x50\xbb\x14\x59\
              \x57\xf8\xb3\x61\x0e\x08\x4d\xbf\x65\x59\x1a\x5d\x11\xec\xd8\x3f";

const KEY: &[u8; 32] = b"\x0f\xb3\x7b\x52\xfb\x77\xd5\x6d\x3b\x9e\xe9\xa5\x92\xe0\xbb\xfb\
              \x07\x20\xc7\x8d\x12\x3e\x8f\x63\x04\x09\x37\x79\x0a\xb7\x18\xd1";

fn secret(alloc: Global, entity: Name, policy_ref: &[u8]) -> Result<Assertion, NoMemory> {
    Ok(Assertion::Secret {
        entity,
        policy_ref: Blob::from_slice(alloc, policy_ref)?,
        cp_hash: None,
        expiration: 0,
    })
}

fn pcr(alloc: Global, mask: u32, value: &[u8; 32]) -> Assertion {
    Assertion::Pcr {
        mask,
        pcr_digest: hash(value),
        values: Digests::new(alloc),
    }
}

fn timer(alloc: Global, operand: &[u8], offset: u16) -> Result<Assertion, NoMemory> {
    Ok(Assertion::CounterTimer {
        operand: Blob::from_slice(alloc, operand)?,
        offset,
        operation: Compare::UnsignedGe,
    })
}

// Whether a policy of this assertion alone has this digest.
fn gives(assertion: Assertion, digest: &[u8; 32]) -> bool {
    extend(Digest32::ZERO, &assertion).bytes == *digest
}

#[test]
fn assertions_of_plain_values(rt: HostRuntime) {
    assert!(rt; gives(Assertion::Password, AUTH_VALUE));
    assert!(rt; gives(Assertion::CommandCode(0x14b), CODE_DUPLICATE));
    assert!(rt; gives(Assertion::Locality(0x09), LOCALITY_0_3));
    assert!(rt; gives(Assertion::CpHash(Digest32 { bytes: [0xab; 32] }), CP_HASH));
    assert!(rt;
        gives(
            Assertion::NameHash(Digest32 { bytes: [0xcd; 32] }),
            NAME_HASH
        )
    );
    assert!(rt; gives(Assertion::NvWritten(false), NV_NOT_WRITTEN));
}

fn secret_gives(alloc: Global, entity: Name, policy_ref: &[u8], digest: &[u8; 32]) -> bool {
    match secret(alloc, entity, policy_ref) {
        Ok(assertion) => gives(assertion, digest),
        Err(_) => false,
    }
}

#[test]
fn assertions_of_secrets(rt: HostRuntime) {
    assert!(rt; secret_gives(rt.alloc(), OWNER, &[], SECRET_OWNER));
    assert!(rt; secret_gives(rt.alloc(), ENDORSEMENT, &[0x5a; 64], SECRET_REF));
}

// The highest bit of an index's content is set.
fn highest_bit(alloc: Global) -> Result<Assertion, NoMemory> {
    Ok(Assertion::Nv {
        index: Name::Hash(Digest32 { bytes: *INDEX }),
        operand: Blob::from_slice(alloc, &[0x80])?,
        offset: 0,
        operation: Compare::BitSet,
    })
}

#[test]
fn assertions_of_machine_values(rt: HostRuntime) -> Result<(), NoMemory> {
    let alloc = rt.alloc();
    assert!(rt; gives(timer(alloc, &[0; 8], 8)?, COUNTER_TIMER));
    assert!(rt; gives(pcr(alloc, 0x01, &[0xff; 32]), PCR_0));
    assert!(rt; gives(pcr(alloc, 0x100, &[0; 32]), PCR_8));
    assert!(rt; gives(highest_bit(alloc)?, NV));
    Ok(())
}

fn signed(alloc: Global) -> Result<Assertion, NoMemory> {
    Ok(Assertion::Signed {
        key: Name::Hash(Digest32 { bytes: *KEY }),
        policy_ref: Blob::from_slice(alloc, &POLICY_REF)?,
        cp_hash: None,
        expiration: 0,
    })
}

fn duplication(include: bool) -> Assertion {
    Assertion::Duplication {
        object: Name::Hash(Digest32 { bytes: *INDEX }),
        parent: Name::Hash(Digest32 { bytes: *KEY }),
        include,
    }
}

#[test]
fn assertions_of_keys(rt: HostRuntime) -> Result<(), NoMemory> {
    assert!(rt; gives(signed(rt.alloc())?, SIGNED));
    assert!(rt; gives(duplication(true), DUPLICATION_OF_OBJECT));
    assert!(rt; gives(duplication(false), DUPLICATION_TO_PARENT));
    Ok(())
}

fn has_digest(policy: &Closed, digest: &[u8; 32]) -> bool {
    digest_of(policy).bytes == *digest
}

fn before(
    alloc: Global,
    element: ClosedElement,
    rest: ClosedElements,
) -> Result<ClosedElements, NoMemory> {
    Ok(ClosedElements::More(Box::new(alloc, element)?, Box::new(alloc, rest)?))
}

fn assert_before(
    alloc: Global,
    assertion: Assertion,
    rest: ClosedElements,
) -> Result<ClosedElements, NoMemory> {
    before(alloc, ClosedElement::Assert(assertion), rest)
}

// A branch of these elements before others; its name is part of no digest.
fn branch_before(
    alloc: Global,
    elements: ClosedElements,
    rest: ClosedBranches,
) -> Result<ClosedBranches, NoMemory> {
    let branch = ClosedBranch {
        name: Text::new(alloc),
        policy: Closed { elements },
    };
    Ok(ClosedBranches::More(Box::new(alloc, branch)?, Box::new(alloc, rest)?))
}

// An OR of two branches.
fn either(
    alloc: Global,
    first: ClosedElements,
    second: ClosedElements,
) -> Result<ClosedElement, NoMemory> {
    let last = branch_before(alloc, second, ClosedBranches::End)?;
    Ok(ClosedElement::Or(branch_before(alloc, first, last)?))
}

fn value_or_locality(alloc: Global) -> Result<ClosedElement, NoMemory> {
    let value = assert_before(alloc, Assertion::AuthValue, ClosedElements::End)?;
    let locality = assert_before(alloc, Assertion::Locality(1), ClosedElements::End)?;
    either(alloc, value, locality)
}

fn or_behind_code(alloc: Global) -> Result<Closed, NoMemory> {
    let or = before(alloc, value_or_locality(alloc)?, ClosedElements::End)?;
    Ok(Closed {
        elements: assert_before(alloc, Assertion::CommandCode(0x15e), or)?,
    })
}

// The number of ways through a policy where no document approves any, and what walking them is answered.
fn ways_of(alloc: Global, policy: &Closed) -> (u64, Result<u32, PathLimit>) {
    let none = Approvals::new(alloc);
    (count_paths(policy, &none), check_paths(policy, &none))
}

// The branches of an OR start from the digest before it.
#[test]
fn branches_start_behind(rt: HostRuntime) -> Result<(), NoMemory> {
    let policy = or_behind_code(rt.alloc())?;
    assert!(rt; has_digest(&policy, OR_BEHIND) && ways_of(rt.alloc(), &policy) == (2, Ok(2)));
    Ok(())
}

// An OR of a secret and of an index that approves.
fn secret_or_index(alloc: Global) -> Result<Closed, NoMemory> {
    let authorize = ClosedElement::AuthorizeNv {
        index: Name::Hash(Digest32 { bytes: *INDEX }),
    };
    let index = before(alloc, authorize, ClosedElements::End)?;
    let key = assert_before(alloc, secret(alloc, ENDORSEMENT, &[])?, ClosedElements::End)?;
    Ok(Closed {
        elements: before(alloc, either(alloc, key, index)?, ClosedElements::End)?,
    })
}

fn is_outside(path: Result<Path, NoMemory>) -> bool {
    match path {
        Ok(path) => path.outside,
        Err(_) => false,
    }
}

// Whether a policy has two ways where no document approves any, and the last is an outside path.
fn has_last_outside(alloc: Global, policy: &Closed) -> bool {
    let none = Approvals::new(alloc);
    match check_paths(policy, &none) {
        Ok(2) => is_outside(path_at(alloc, policy, &none, 2)),
        _ => false,
    }
}

// An AUTHORIZENV that no document meets has its outside path alone.
#[test]
fn an_index_approves(rt: HostRuntime) -> Result<(), NoMemory> {
    let policy = secret_or_index(rt.alloc())?;
    assert!(rt; has_digest(&policy, OR_OF_INDEX) && has_last_outside(rt.alloc(), &policy));
    Ok(())
}

fn ors(alloc: Global, count: u8) -> Result<ClosedElements, NoMemory> {
    let mut elements = ClosedElements::End;
    for _ in 0..count {
        elements = before(alloc, value_or_locality(alloc)?, elements)?;
    }
    Ok(elements)
}

// The same of so many ORs of two branches.
fn ways_of_ors(alloc: Global, count: u8) -> Result<(u64, Result<u32, PathLimit>), NoMemory> {
    let policy = Closed {
        elements: ors(alloc, count)?,
    };
    Ok(ways_of(alloc, &policy))
}

#[test]
fn limits(rt: HostRuntime) {
    assert!(rt; ways_of_ors(rt.alloc(), 16) == Ok((65_536, Ok(65_536))));
    assert!(rt; ways_of_ors(rt.alloc(), 17) == Ok((65_537, Err(PathLimit::TooManyPaths))));
}

const POLICY_REF: [u8; 8] = [0x00, 0x00, 0x01, 0x6c, 0x00, 0x00, 0x01, 0x5e];

// What the first update of a PolicySecret of the owner hashes first.
fn first_update() -> [u8; 40] {
    let mut first = [0; 40];
    first[34] = 0x01;
    first[35] = 0x51;
    first[36] = 0x40;
    first[39] = 0x01;
    first
}

// What it hashes then.
fn second_update() -> [u8; 40] {
    let mut second = [0; 40];
    second[..32].copy_from_slice(OWNER_FIRST);
    second[32..].copy_from_slice(&POLICY_REF);
    second
}

// What the PolicyOR behind it hashes.
fn or_update() -> [u8; 100] {
    let mut string = [0; 100];
    string[32..36].copy_from_slice(&[0x00, 0x00, 0x01, 0x71]);
    string[36..68].copy_from_slice(OWNER_THEN_REF);
    string[68..].copy_from_slice(AUTH_VALUE);
    string
}

// An OR of a secret and of an authorization value.
fn secret_or_value(alloc: Global) -> Result<Closed, NoMemory> {
    let owner = secret(alloc, OWNER, &POLICY_REF)?;
    let owner = assert_before(alloc, owner, ClosedElements::End)?;
    let value = assert_before(alloc, Assertion::AuthValue, ClosedElements::End)?;
    Ok(Closed {
        elements: before(alloc, either(alloc, owner, value)?, ClosedElements::End)?,
    })
}

// Whether the input at this index is this one.
fn is_input(inputs: &Inputs, index: usize, string: &[u8]) -> bool {
    match inputs.get(index) {
        Some(input) => input.as_slice() == string,
        None => false,
    }
}

// Whether the policy's digest hashes four inputs, of which the first is the secret's.
fn has_four_inputs(alloc: Global, policy: &Closed) -> bool {
    let none = Approvals::new(alloc);
    match inputs_of(alloc, policy, &none) {
        Ok(inputs) => inputs.len() == 4 && is_input(&inputs, 0, &first_update()),
        Err(_) => false,
    }
}

#[test]
fn inputs_of_two_stages(rt: HostRuntime) -> Result<(), NoMemory> {
    let policy = secret_or_value(rt.alloc())?;
    assert!(rt; has_digest(&policy, TWO_STAGES) && has_four_inputs(rt.alloc(), &policy));
    Ok(())
}

fn fact(act: Move) -> Fact {
    Fact {
        event: 1,
        act,
        cp_hash: None,
        deadline: None,
    }
}

// A copy of a PolicyOR.
fn or_move(alloc: Global) -> Result<Move, NoMemory> {
    let digests = [
        Digest32 {
            bytes: *OWNER_THEN_REF,
        },
        Digest32 { bytes: *AUTH_VALUE },
    ];
    let or = Move::Or(Digests::from_slice(alloc, &digests)?);
    or.try_clone(alloc)
}

// A copy of what a session keeps of a PolicySecret.
fn secret_fact(alloc: Global) -> Result<Fact, NoMemory> {
    let secret = secret(alloc, OWNER, &POLICY_REF)?;
    let fact = fact(Move::Assert(secret));
    Ok(fact.clone()?)
}

// What a session keeps of a PolicySecret and then a PolicyOR.
fn two_facts(alloc: Global) -> Result<Facts, NoMemory> {
    let mut facts = Facts::new(alloc)?;
    facts.push(secret_fact(alloc)?);
    facts.push(fact(or_move(alloc)?));
    Ok(facts)
}

fn are_three_inputs(inputs: &Inputs) -> bool {
    inputs.len() == 3
        && is_input(inputs, 0, &first_update())
        && is_input(inputs, 1, &second_update())
        && is_input(inputs, 2, &or_update())
}

fn hash_three_inputs(alloc: Global, facts: &Facts) -> bool {
    match inputs_of_facts(alloc, facts) {
        Ok(inputs) => are_three_inputs(&inputs),
        Err(_) => false,
    }
}

fn has_two_stages(alloc: Global, facts: &Facts) -> bool {
    run_facts(facts).bytes == *TWO_STAGES && hash_three_inputs(alloc, facts)
}

// A session that begins anew has no facts.
fn has_no_digest_anew(facts: &mut Facts) -> bool {
    facts.clear();
    run_facts(facts) == Digest32::ZERO
}

// A PolicySecret and then a PolicyOR hash three strings.
#[test]
fn inputs_of_a_session(rt: HostRuntime) -> Result<(), NoMemory> {
    let mut facts = two_facts(rt.alloc())?;
    assert!(rt; has_two_stages(rt.alloc(), &facts) && has_no_digest_anew(&mut facts));
    Ok(())
}

// What a PolicyAuthorizeNV hashes: the TPM's digest of an OR of a secret and of this index is made of its digest.
fn approval_update() -> [u8; 70] {
    let mut string = [0; 70];
    string[32..38].copy_from_slice(&[0x00, 0x00, 0x01, 0x92, 0x00, 0x0b]);
    string[38..].copy_from_slice(INDEX);
    string
}

// What a PolicyAuthValue hashes.
fn value_update() -> [u8; 36] {
    let mut string = [0; 36];
    string[34] = 0x01;
    string[35] = 0x6b;
    string
}

// Whatever the index approves.
fn approved_by_index(alloc: Global) -> Result<Closed, NoMemory> {
    let authorize = ClosedElement::AuthorizeNv {
        index: Name::Hash(Digest32 { bytes: *INDEX }),
    };
    Ok(Closed {
        elements: before(alloc, authorize, ClosedElements::End)?,
    })
}

// A copy of the document "v1", of the authorization value, which the index approves.
fn document_of_index(alloc: Global) -> Result<ApprovedDoc, NoMemory> {
    let elements = assert_before(alloc, Assertion::AuthValue, ClosedElements::End)?;
    let document = ApprovedDoc {
        document: Text::from_str(alloc, "v1")?,
        by: ApprovedBy::Index {
            index: Name::Hash(Digest32 { bytes: *INDEX }),
        },
        closed: Closed { elements },
        digest: Digest32 { bytes: *AUTH_VALUE },
    };
    Ok(document.clone()?)
}

fn approvals_of_index(alloc: Global) -> Result<Approvals, NoMemory> {
    let mut approvals = Approvals::new(alloc);
    approvals.push(document_of_index(alloc)?)?;
    Ok(approvals)
}

fn hash_two_inputs(alloc: Global, policy: &Closed, approvals: &Approvals) -> bool {
    match inputs_of(alloc, policy, approvals) {
        Ok(inputs) => {
            inputs.len() == 2
                && is_input(&inputs, 0, &approval_update())
                && is_input(&inputs, 1, &value_update())
        }
        Err(_) => false,
    }
}

fn is_document(step: Result<PathStep, NoMemory>, name: &str) -> bool {
    match step {
        Ok(PathStep::Document(document)) => document.as_str() == name,
        _ => false,
    }
}

// Whether a path begins with the choice of this document.
fn chooses(alloc: Global, path: &Path, name: &str) -> bool {
    match path.steps.as_slice().first() {
        Some(step) => is_document(step.try_clone(alloc), name),
        None => false,
    }
}

fn copy_chooses(alloc: Global, path: &Path, name: &str) -> bool {
    match path.clone() {
        Ok(copy) => chooses(alloc, &copy, name),
        Err(_) => false,
    }
}

fn is_way_of(alloc: Global, path: Result<Path, NoMemory>, name: &str) -> bool {
    match path {
        Ok(path) => copy_chooses(alloc, &path, name),
        Err(_) => false,
    }
}

// Whether a policy has two ways, of which the first chooses this document.
fn has_way_of(alloc: Global, policy: &Closed, approvals: &Approvals, name: &str) -> bool {
    match check_paths(policy, approvals) {
        Ok(2) => is_way_of(alloc, path_at(alloc, policy, approvals, 1), name),
        _ => false,
    }
}

fn approves(alloc: Global, policy: &Closed) -> bool {
    match approvals_of_index(alloc) {
        Ok(approvals) => {
            hash_two_inputs(alloc, policy, &approvals)
                && has_way_of(alloc, policy, &approvals, "v1")
        }
        Err(_) => false,
    }
}

// Copies of a document, of the way that chooses it and of that choice are as good as they are.
#[test]
fn a_copied_document_is_approved(rt: HostRuntime) -> Result<(), NoMemory> {
    let policy = approved_by_index(rt.alloc())?;
    assert!(rt; approves(rt.alloc(), &policy));
    Ok(())
}
