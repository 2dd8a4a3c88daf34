//! A machine that just started: what it shows, its directory, and the digests of policies whose entities it has.
//!
//! The proof of a function proves the drop of each value that it holds, wherever it may end early. So what the machine is
//! set up with, and what it shows, are each held by one function that ends in one place.

use crate::entities::{approver, owner_index};
use crate::filling::have_digests;
use crate::names::digest_in;
use crate::vectors::INDEX;
use std::alloc::Global;
use tpol_base::{Blob, Digest32, NoMemory, Sequence};
use tpol_name::{DirEntry, Setup, Sight, directory, opening_sight};

/// A machine with nothing on it.
fn empty_setup(alloc: Global) -> Setup {
    Setup {
        seed: Digest32::ZERO,
        owner: Blob::new(alloc),
        endorsement: Blob::new(alloc),
        lockout: Blob::new(alloc),
        pcrs: Sequence::new(alloc),
        pcr_counter: 7,
        objects: Sequence::new(alloc),
        indices: Sequence::new(alloc),
        time: 1000,
        reset_count: 2,
        restart_count: 3,
        safe: true,
        presence: false,
    }
}

fn fill(setup: &mut Setup, alloc: Global) -> Result<(), NoMemory> {
    setup.owner = Blob::from_slice(alloc, b"owner")?;
    setup.pcrs = Sequence::from_slice(alloc, &[Digest32::ZERO; 24])?;
    setup.objects.push(approver(alloc)?)?;
    setup.indices.push(owner_index(alloc)?)
}

fn shows_what_is_there(sight: &Sight) -> bool {
    sight.free_sessions == 64
        && sight.owner.as_slice() == b"owner".as_slice()
        && sight.objects.len() == 1
        && sight.indices.len() == 1
        && sight.pcrs.len() == 24
}

fn shows(alloc: Global, setup: &Setup) -> bool {
    match opening_sight(alloc, setup) {
        Ok(sight) => {
            let answer = shows_what_is_there(&sight) && have_digests(alloc, &sight);
            drop(sight);
            answer
        }
        Err(_) => false,
    }
}

fn are_key_and_index(lines: &[DirEntry]) -> bool {
    match lines {
        [key, index] => {
            key.handle == 0x8000_0001
                && index.handle == 0x01c0_7f01
                && digest_in(&index.name) == *INDEX
        }
        _ => false,
    }
}

fn has_key_and_index(alloc: Global, setup: &Setup) -> bool {
    match directory(alloc, setup) {
        Ok(lines) => are_key_and_index(lines.as_slice()),
        Err(_) => false,
    }
}

fn is_started(alloc: Global) -> bool {
    let mut setup = empty_setup(alloc);
    let answer = fill(&mut setup, alloc).is_ok()
        && shows(alloc, &setup)
        && has_key_and_index(alloc, &setup);
    drop(setup);
    answer
}

#[test]
fn what_a_started_machine_shows(rt: HostRuntime) {
    assert!(rt; is_started(rt.alloc()));
}
