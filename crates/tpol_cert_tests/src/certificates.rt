//! Certificates that were computed with another SHA-256, from what TPM 2.0 Part 3 says that each command hashes, and from
//! how a certificate is written.

use std::alloc::Global;
use tpol_base::{Blob, Digest32, Name, NoMemory, Text};
use tpol_cert::{CertFault, certify, check};
use tpol_digest::{check_paths, digest_of};
use tpol_tree::{
    Approvals, ApprovedBy, ApprovedDoc, Assertion, Closed, ClosedBranch, ClosedBranches,
    ClosedElement, ClosedElements,
};

// The certificate of a policy of an authorization value alone, whose digest a TPM 2.0 gave too.
const ONE: &[u8; 40] = b"\x46\x50\x43\x31\x00\x00\x00\x01\x8f\xcd\x21\x69\xab\x92\x69\x4e\
              \x0c\x63\x3f\x1a\xb7\x72\x84\x2b\x82\x41\xbb\xc2\x02\x88\x98\x1f\
              \xc7\xac\x1e\xdd\xc1\xfd\xdb\x0e";

// Of the third of nine branches, which stand in a group of eight and one behind it.
const THIRD: &[u8; 114] = b"\x46\x50\x43\x31\x00\x02\x01\x00\x00\x00\x01\x01\x00\x00\x00\x03\
              \x00\x03\x77\x94\xf6\xc3\xe3\xa8\x7b\x98\x11\x1a\x7b\x2e\x04\x42\
              \x9e\x24\x1b\x7a\xb1\x62\x35\x73\x23\x36\xa9\x71\xc1\x70\xe3\x75\
              \xaf\x3a\xc3\x3d\xc4\x8e\x49\x7d\xae\x6f\xc5\xde\x63\xdf\x75\x3d\
              \x84\xd4\xfd\x78\xbb\xf7\x36\xb4\x78\xf5\x9f\xe0\x87\xfe\x77\xcb\
              \x44\x86\x8b\x3e\x6d\x7b\x88\x92\xdc\x01\xe5\x2c\xda\xd6\x00\xba\
              \xff\x35\x93\x19\x2f\xfa\x98\xda\xbc\x2d\x82\x80\x45\x22\x8e\x46\
              \x95\x7d";

// Of the ninth, which stands alone.
const NINTH: &[u8; 77] = b"\x46\x50\x43\x31\x00\x01\x01\x00\x00\x00\x02\x00\x02\x8f\xcd\x21\
              \x69\xab\x92\x69\x4e\x0c\x63\x3f\x1a\xb7\x72\x84\x2b\x82\x41\xbb\
              \xc2\x02\x88\x98\x1f\xc7\xac\x1e\xdd\xc1\xfd\xdb\x0e\x8b\x3e\x6d\
              \x7b\x88\x92\xdc\x01\xe5\x2c\xda\xd6\x00\xba\xff\x35\x93\x19\x2f\
              \xfa\x98\xda\xbc\x2d\x82\x80\x45\x22\x8e\x46\x95\x7d";

// Of the second document that the key approved.
const SECOND_DOCUMENT: &[u8; 77] =
    b"\x46\x50\x43\x31\x00\x01\x02\x00\x00\x00\x02\x00\x02\x8f\xcd\x21\
              \x69\xab\x92\x69\x4e\x0c\x63\x3f\x1a\xb7\x72\x84\x2b\x82\x41\xbb\
              \xc2\x02\x88\x98\x1f\xc7\xac\x1e\xdd\xc1\xfd\xdb\x0e\x87\xd2\x39\
              \x7f\x58\xd8\xb3\xb5\x00\xbb\xe7\xd6\x08\x24\xea\x52\xf8\x76\x4b\
              \xa9\xb8\x82\xb9\x18\xfd\xbb\x3d\x51\xad\xa6\x33\x46";

// Of a policy that no listed document has.
const OTHER_POLICY: &[u8; 41] = b"\x46\x50\x43\x31\x00\x01\x03\x00\x01\x87\xd2\x39\x7f\x58\xd8\xb3\
              \xb5\x00\xbb\xe7\xd6\x08\x24\xea\x52\xf8\x76\x4b\xa9\xb8\x82\xb9\
              \x18\xfd\xbb\x3d\x51\xad\xa6\x33\x46";

// The digest of the key's Name.
const KEY: &[u8; 32] = b"\x0f\xb3\x7b\x52\xfb\x77\xd5\x6d\x3b\x9e\xe9\xa5\x92\xe0\xbb\xfb\
              \x07\x20\xc7\x8d\x12\x3e\x8f\x63\x04\x09\x37\x79\x0a\xb7\x18\xd1";

// The digest of an index's Name.
const INDEX: &[u8; 32] = b"\x0c\x9d\x71\x7e\x9c\x3f\xe6\x9f\xda\x41\x76\x94\x50\xbb\x14\x59\
              \x57\xf8\xb3\x61\x0e\x08\x4d\xbf\x65\x59\x1a\x5d\x11\xec\xd8\x3f";

fn before(
    alloc: Global,
    element: ClosedElement,
    rest: ClosedElements,
) -> Result<ClosedElements, NoMemory> {
    Ok(ClosedElements::More(Box::new(alloc, element)?, Box::new(alloc, rest)?))
}

fn one(alloc: Global, assertion: Assertion) -> Result<ClosedElements, NoMemory> {
    before(alloc, ClosedElement::Assert(assertion), ClosedElements::End)
}

// A branch of these elements before others; its name is part of no certificate.
fn branch_before(
    alloc: Global,
    elements: ClosedElements,
    rest: ClosedBranches,
) -> Result<ClosedBranches, NoMemory> {
    let branch = ClosedBranch {
        name: Text::new(alloc),
        policy: Closed { elements },
    };
    Ok(ClosedBranches::More(Box::new(alloc, branch)?, Box::new(alloc, rest)?))
}

// Whether these bytes are answered so.
fn answers(
    alloc: Global,
    policy: &Closed,
    approvals: &Approvals,
    bytes: &[u8],
    answer: Result<u32, CertFault>,
) -> bool {
    match check_paths(policy, approvals) {
        Ok(_) => check(alloc, policy, approvals, bytes) == answer,
        Err(_) => false,
    }
}

// Whether these bytes are the certificate of the path at a position.
fn is_certificate(
    alloc: Global,
    policy: &Closed,
    approvals: &Approvals,
    position: u32,
    bytes: &[u8],
) -> bool {
    match check_paths(policy, approvals) {
        Ok(count) => {
            if position == 0 || count < position {
                return false;
            }
            match certify(alloc, policy, approvals, position) {
                Ok(certificate) => certificate.as_slice() == bytes,
                Err(_) => false,
            }
        }
        Err(_) => false,
    }
}

// An authorization value alone.
fn plain(alloc: Global) -> Result<Closed, NoMemory> {
    Ok(Closed {
        elements: one(alloc, Assertion::AuthValue)?,
    })
}

#[test]
fn no_choice(rt: HostRuntime) -> Result<(), NoMemory> {
    let alloc = rt.alloc();
    let policy = plain(alloc)?;
    let none = Approvals::new(alloc);
    let certified = is_certificate(alloc, &policy, &none, 1, ONE);
    let accepted = answers(alloc, &policy, &none, ONE, Ok(1));
    drop(policy);
    drop(none);
    assert!(rt; certified && accepted);
    Ok(())
}

// The certificate with another last byte, without its digest, with another beside it, and cut.
fn refuses_changes(alloc: Global, policy: &Closed, none: &Approvals) -> bool {
    let whole = ONE.as_slice();
    let mut other = *ONE;
    other[39] = 0x0f;
    let missing = [0x46, 0x50, 0x43, 0x31, 0, 0, 0, 0];
    let mut twice = [0; 72];
    twice[..40].copy_from_slice(ONE);
    twice[40..].copy_from_slice(&whole[8..]);
    twice[7] = 2;
    answers(alloc, policy, none, &other, Err(CertFault::Differs(1)))
        && answers(alloc, policy, none, &missing, Err(CertFault::Differs(1)))
        && answers(alloc, policy, none, &twice, Err(CertFault::Differs(2)))
        && answers(alloc, policy, none, &whole[..39], Err(CertFault::Malformed))
        && answers(alloc, policy, none, &[], Err(CertFault::Malformed))
}

#[test]
fn changed_digests(rt: HostRuntime) -> Result<(), NoMemory> {
    let policy = plain(rt.alloc())?;
    let none = Approvals::new(rt.alloc());
    let answer = refuses_changes(rt.alloc(), &policy, &none);
    drop(policy);
    drop(none);
    assert!(rt; answer);
    Ok(())
}

// Nine branches: the localities with these bits in a group of eight, and the authorization value behind it.
fn nine_branches(alloc: Global) -> Result<Closed, NoMemory> {
    let mut group = ClosedBranches::End;
    for bits in [8, 7, 6, 5, 4, 3, 2, 1] {
        group = branch_before(alloc, one(alloc, Assertion::Locality(bits))?, group)?;
    }
    let eight = before(alloc, ClosedElement::Or(group), ClosedElements::End)?;
    let ninth = one(alloc, Assertion::AuthValue)?;
    let behind = branch_before(alloc, ninth, ClosedBranches::End)?;
    let or = ClosedElement::Or(branch_before(alloc, eight, behind)?);
    Ok(Closed {
        elements: before(alloc, or, ClosedElements::End)?,
    })
}

fn certifies_nine(alloc: Global, policy: &Closed, none: &Approvals) -> bool {
    is_certificate(alloc, policy, none, 3, THIRD)
        && answers(alloc, policy, none, THIRD, Ok(3))
        && is_certificate(alloc, policy, none, 9, NINTH)
        && answers(alloc, policy, none, NINTH, Ok(9))
}

#[test]
fn branches_in_groups(rt: HostRuntime) -> Result<(), NoMemory> {
    let policy = nine_branches(rt.alloc())?;
    let none = Approvals::new(rt.alloc());
    let answer = certifies_nine(rt.alloc(), &policy, &none);
    drop(policy);
    drop(none);
    assert!(rt; answer);
    Ok(())
}

// No ninth branch in the group; a third branch where there are two; a missing choice; and one too many.
fn refuses_steps(alloc: Global, policy: &Closed, none: &Approvals) -> bool {
    let mut ninth_in_group = *THIRD;
    ninth_in_group[15] = 9;
    let mut third = *NINTH;
    third[10] = 3;
    let group_alone = [0x46, 0x50, 0x43, 0x31, 0, 1, 1, 0, 0, 0, 1, 0, 0];
    let one_more = [0x46, 0x50, 0x43, 0x31, 0, 2, 1, 0, 0, 0, 2, 3, 0, 0];
    answers(
        alloc,
        policy,
        none,
        &ninth_in_group,
        Err(CertFault::NoStep(2)),
    ) && answers(alloc, policy, none, &third, Err(CertFault::NoStep(1)))
        && answers(alloc, policy, none, &group_alone, Err(CertFault::NoStep(2)))
        && answers(alloc, policy, none, &one_more, Err(CertFault::NoStep(2)))
}

#[test]
fn wrong_choices(rt: HostRuntime) -> Result<(), NoMemory> {
    let policy = nine_branches(rt.alloc())?;
    let none = Approvals::new(rt.alloc());
    let answer = refuses_steps(rt.alloc(), &policy, &none);
    drop(policy);
    drop(none);
    assert!(rt; answer);
    Ok(())
}

fn by_key(alloc: Global) -> ApprovedBy {
    ApprovedBy::Key {
        key: Name::Hash(Digest32 { bytes: *KEY }),
        policy_ref: Blob::new(alloc),
        signature: Digest32 { bytes: [0xa5; 32] },
    }
}

fn approved(
    alloc: Global,
    name: &str,
    by: ApprovedBy,
    assertion: Assertion,
) -> Result<ApprovedDoc, NoMemory> {
    let closed = Closed {
        elements: one(alloc, assertion)?,
    };
    let digest = digest_of(&closed);
    Ok(ApprovedDoc {
        document: Text::from_str(alloc, name)?,
        by,
        closed,
        digest,
    })
}

// Three documents, of which the key approved the first and the last.
fn versions(alloc: Global) -> Result<Approvals, NoMemory> {
    let by_index = ApprovedBy::Index {
        index: Name::Hash(Digest32 { bytes: *INDEX }),
    };
    let mut approvals = Approvals::new(alloc);
    approvals.push(approved(alloc, "v1", by_key(alloc), Assertion::Locality(1))?)?;
    approvals.push(approved(alloc, "v2", by_index, Assertion::PhysicalPresence)?)?;
    approvals.push(approved(alloc, "v3", by_key(alloc), Assertion::AuthValue)?)?;
    Ok(approvals)
}

// Whatever the key approves.
fn base(alloc: Global) -> Result<Closed, NoMemory> {
    let authorize = ClosedElement::Authorize {
        key: Name::Hash(Digest32 { bytes: *KEY }),
        policy_ref: Blob::new(alloc),
    };
    Ok(Closed {
        elements: before(alloc, authorize, ClosedElements::End)?,
    })
}

fn certifies_documents(alloc: Global, policy: &Closed, approvals: &Approvals) -> bool {
    is_certificate(alloc, policy, approvals, 2, SECOND_DOCUMENT)
        && answers(alloc, policy, approvals, SECOND_DOCUMENT, Ok(2))
        && is_certificate(alloc, policy, approvals, 3, OTHER_POLICY)
        && answers(alloc, policy, approvals, OTHER_POLICY, Ok(3))
}

// A document is numbered among those that the key approved: there is no third.
fn has_no_third(alloc: Global, policy: &Closed, approvals: &Approvals) -> bool {
    let mut third = *SECOND_DOCUMENT;
    third[10] = 3;
    answers(alloc, policy, approvals, &third, Err(CertFault::NoStep(1)))
}

#[test]
fn approved_documents(rt: HostRuntime) -> Result<(), NoMemory> {
    let policy = base(rt.alloc())?;
    let approvals = versions(rt.alloc())?;
    let certified = certifies_documents(rt.alloc(), &policy, &approvals);
    let refused = has_no_third(rt.alloc(), &policy, &approvals);
    drop(policy);
    drop(approvals);
    assert!(rt; certified && refused);
    Ok(())
}
