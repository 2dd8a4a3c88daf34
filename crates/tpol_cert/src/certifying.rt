// The certificate of a path.

ghost use Rattle.std.specs.Prelude.{◌≡◌, ◌≤◌, ◌<◌, ◌∷◌, ◌++◌, ◌^◌, IfOk, OnOk, length};
ghost use Rattle.std.specs.Int.{to_be_bytes, w32};
ghost use Rattle.tpol_cert.specs.Certificates.{Certifies, digests_along};
ghost use Rattle.tpol_cert.specs.Spelling as spelling;
ghost use Rattle.tpol_digest.specs.Digest as digest;
ghost use Rattle.tpol_digest.specs.Limits.{AreWithinLimits};
ghost use Rattle.tpol_digest.specs.Paths.{paths_of};
ghost use Rattle.tpol_digest.specs.Update.{joined};

use crate::walk::{Scope, push_elements};
use crate::{Choice, Choices};
use std::alloc::Global;
use tpol_base::{Blob, Digest32, NoMemory};
use tpol_digest::{MAX_LEVELS, count_ways, digest_after_move, path_at, zero_digest};
use tpol_tree::{Approvals, Closed, Move};

/// The certificate of the path that has a position, from 1: `46504331`, the number of choices in 2 bytes, the choices,
/// the number of moves in 2 bytes, and the digest after each of the moves, 32 bytes each. A choice is `01` and a
/// branch's number in 4 bytes, or `02` and a document's, or `03` for a policy that no listed document has. Numbers
/// are big-endian and count from 1. It fails only where memory ran out.
pub fn certify(
    alloc: Global,
    policy: &Closed,
    approvals: &Approvals,
    path: u32,
) -> Result<Blob, NoMemory>
    requires within { AreWithinLimits (paths_of policy.now approvals.now) }
    requires positions { (1 ≤ path) × (path ≤ length (paths_of policy.now approvals.now)) }
    ensures certifies { IfOk result (λ bytes. Certifies bytes policy.now approvals.now path) }
{
    let scope = Scope {
        approvals: approvals.as_slice(),
        levels: MAX_LEVELS,
    };
    let count = count_ways(scope.approvals, scope.levels, &policy.elements);
    let index = u64::from(path - 1);
    let mut choices = Choices::new(alloc);
    push_elements(&scope, &mut choices, &policy.elements, index, count)?;
    let way = path_at(alloc, policy, approvals, path)?;
    let mut bytes = Blob::new(alloc);
    bytes.extend_from_slice(b"FPC1")?;
    write_choices(&mut bytes, choices.as_slice())?;
    write_digests(&mut bytes, way.moves.as_slice())?;
    Ok(bytes)
}

// Writes the number of choices, and the choices.
fn write_choices(bytes: &mut Blob, choices: &[Choice]) -> Result<(), NoMemory>
    requires few { length choices.now < 2 ^ 16 }
    ensures { OnOk result (bytes.new ≡ bytes.old ++ spelling.spelled_choices choices.now) }
{
    bytes.extend_from_slice(&(choices.len() as u16).to_be_bytes())?;
    for choice in choices {
        write_choice(bytes, *choice)?;
    }
    Ok(())
}

// Writes one choice.
fn write_choice(bytes: &mut Blob, choice: Choice) -> Result<(), NoMemory>
    ensures { OnOk result (bytes.new ≡ bytes.old ++ spelling.spelled_choice choice) }
{
    match choice {
        Choice::Branch(number) => write_number(bytes, 1, number),
        Choice::Document(number) => write_number(bytes, 2, number),
        Choice::Outside => bytes.push(3),
    }
}

// Writes a kind and a number.
fn write_number(bytes: &mut Blob, kind: u8, number: u32) -> Result<(), NoMemory>
    ensures { OnOk result (bytes.new ≡ bytes.old ++ kind ∷ to_be_bytes w32 number) }
{
    bytes.push(kind)?;
    bytes.extend_from_slice(&number.to_be_bytes())
}

// Writes the number of moves, and the digest after each.
fn write_digests(bytes: &mut Blob, moves: &[Move]) -> Result<(), NoMemory>
    requires few { length moves.now < 2 ^ 16 }
    ensures { OnOk result (bytes.new
        ≡ bytes.old ++ spelling.spelled_digests (digests_along digest.zero_digest moves.now)) }
{
    bytes.extend_from_slice(&(moves.len() as u16).to_be_bytes())?;
    write_along(bytes, zero_digest(), moves)
}

// Writes the digest after each of these moves, where `before` is the digest before them.
fn write_along(bytes: &mut Blob, before: Digest32, moves: &[Move]) -> Result<(), NoMemory>
    ensures { OnOk result (bytes.new ≡ bytes.old ++ joined (digests_along before moves.now)) }
{
    match moves {
        [] => Ok(()),
        [act, rest @ ..] => {
            let digest = digest_after_move(before, act);
            bytes.extend_from_slice(&digest.bytes)?;
            write_along(bytes, digest, rest)
        }
    }
}
