//! What the plans of runs are made of, as the tables of the tests have it: the moves of a path, the values that a client
//! has, the lines of its directory, and its tickets.

use std::alloc::Global;
use tpol_base::{Blob, Compare, Digest32, Digests, Name, NoMemory, Text};
use tpol_driver::{HeldTicket, Tickets};
use tpol_goal::Secrets;
use tpol_name::{DirEntry, Directory};
use tpol_tree::{Assertion, Move, Moves, Path, PathSteps, Paths};

// The digests in other Names.

pub const KEY: [u8; 32] = [0x11; 32];

pub const COUNTER: [u8; 32] = [0x22; 32];

pub const APPROVALS: [u8; 32] = [0x33; 32];

const APPROVED: Digest32 = Digest32 { bytes: [0x88; 32] };

/// The move of a path.
#[derive(Clone, Copy)]
pub enum Act {
    /// PolicyPCR of the PCRs 0, 2, 4 and 7 with this digest.
    Pcrs([u8; 32]),
    AuthValue,
    Branches([u8; 32], [u8; 32]),
    Signed {
        policy_ref: &'static [u8],
        cp_hash: Option<[u8; 32]>,
        expiration: i32,
    },
    Secret {
        entity: u32,
        expiration: i32,
    },
    CommandCode(u32),
    Counter,
    Approval,
    ApprovalByIndex,
    Timer,
    Password,
}

fn digest(bytes: [u8; 32]) -> Digest32 {
    Digest32 { bytes }
}

fn name(bytes: [u8; 32]) -> Name {
    Name::Hash(digest(bytes))
}

fn move_of(alloc: Global, act: Act) -> Result<Move, NoMemory> {
    Ok(match act {
        Act::Pcrs(pcr_digest) => Move::Assert(Assertion::Pcr {
            mask: 0x95,
            pcr_digest: digest(pcr_digest),
            values: Digests::new(alloc),
        }),
        Act::AuthValue => Move::Assert(Assertion::AuthValue),
        Act::Branches(first, second) => Move::Or(Digests::from_slice(
            alloc,
            &[digest(first), digest(second)],
        )?),
        Act::Signed {
            policy_ref,
            cp_hash,
            expiration,
        } => Move::Assert(Assertion::Signed {
            key: name(KEY),
            policy_ref: Blob::from_slice(alloc, policy_ref)?,
            cp_hash: cp_hash.map(digest),
            expiration,
        }),
        Act::Secret { entity, expiration } => Move::Assert(Assertion::Secret {
            entity: Name::Handle(entity),
            policy_ref: Blob::new(alloc),
            cp_hash: None,
            expiration,
        }),
        Act::CommandCode(code) => Move::Assert(Assertion::CommandCode(code)),
        Act::Counter => Move::Assert(Assertion::Nv {
            index: name(COUNTER),
            operand: Blob::from_slice(alloc, b"\x05\x06")?,
            offset: 1,
            operation: Compare::UnsignedLe,
        }),
        Act::Approval => Move::Approve {
            key: name(KEY),
            policy_ref: Blob::from_slice(alloc, b"app")?,
            approved: APPROVED,
            signature: Digest32 { bytes: [0x99; 32] },
        },
        Act::ApprovalByIndex => Move::ApproveNv {
            index: name(APPROVALS),
            approved: APPROVED,
        },
        Act::Timer => Move::Assert(Assertion::CounterTimer {
            operand: Blob::from_slice(alloc, b"\x07")?,
            offset: 8,
            operation: Compare::SignedGt,
        }),
        Act::Password => Move::Assert(Assertion::Password),
    })
}

pub fn push_moves(moves: &mut Moves, alloc: Global, path: &[Act]) -> Result<(), NoMemory> {
    for act in path {
        moves.push(move_of(alloc, *act)?)?;
    }
    Ok(())
}

fn push_path(paths: &mut Paths, alloc: Global, path: &[Act]) -> Result<(), NoMemory> {
    let mut moves = Moves::new(alloc);
    push_moves(&mut moves, alloc, path)?;
    paths.push(Path {
        steps: PathSteps::new(alloc),
        moves,
        outside: false,
    })
}

pub fn push_paths(paths: &mut Paths, alloc: Global, table: &[&[Act]]) -> Result<(), NoMemory> {
    for path in table {
        push_path(paths, alloc, path)?;
    }
    Ok(())
}

pub fn push_secrets(
    secrets: &mut Secrets,
    alloc: Global,
    values: &[(u32, &[u8])],
) -> Result<(), NoMemory> {
    for (handle, value) in values {
        secrets.push((*handle, Blob::from_slice(alloc, value)?))?;
    }
    Ok(())
}

pub fn push_entries(
    directory: &mut Directory,
    alloc: Global,
    lines: &[(u32, [u8; 32], u32)],
) -> Result<(), NoMemory> {
    for (handle, digest, attributes) in lines {
        directory.push(DirEntry {
            path: Text::from_str(alloc, "/x")?,
            handle: *handle,
            name: name(*digest),
            attributes: *attributes,
        })?;
    }
    Ok(())
}

/// A ticket of the endorsement hierarchy at the deadline 1,000.
fn held(alloc: Global, policy_ref: &[u8], digest: [u8; 32]) -> Result<HeldTicket, NoMemory> {
    Ok(HeldTicket {
        signed: false,
        key: Name::Handle(0x4000_000b),
        policy_ref: Blob::from_slice(alloc, policy_ref)?,
        cp_hash: None,
        deadline: 1000,
        reset_count: 0,
        digest: Digest32 { bytes: digest },
    })
}

pub fn push_tickets(
    tickets: &mut Tickets,
    alloc: Global,
    held_by_run: &[(&[u8], [u8; 32])],
) -> Result<(), NoMemory> {
    for (policy_ref, digest) in held_by_run {
        tickets.push(held(alloc, policy_ref, *digest)?)?;
    }
    Ok(())
}
