//! Ten uses of one session, each of which differs from one that is allowed in a single thing, and so breaks one
//! check and no other. The codes are those of TPM 2.0 Part 1, "Policy Session Use", done by hand.

use crate::{Attempt, check_use, code_of_check};
use std::alloc::Global;
use std::test::Fail;
use tpm_session::{Session, Sessions, fresh_facts};
use tpol_base::{CommandCode, Digest32, Digests, NoMemory};
use tpol_tree::{Assertion, Fact, Move};

const VALUE: &[u8; 3] = b"pin";

// A session that started at time 0.
fn start(alloc: Global) -> Result<Option<Session>, NoMemory> {
    let mut sessions = Sessions::new(alloc)?;
    match sessions.start(0, Digest32::ZERO, fresh_facts(alloc)?, 0) {
        Ok(handle) => Ok(sessions.take_out(handle)),
        Err(_) => Ok(None),
    }
}

// Adds an assertion that agrees with those before, at PCR counter 7, until 1,000 milliseconds.
fn add(session: &mut Session, assertion: Assertion) {
    let act = Move::Assert(assertion);
    if session.room() == 0 || session.bindings().disagreement_with(&act).is_some() {
        return;
    }
    let fact = Fact {
        event: 1,
        act,
        cp_hash: None,
        deadline: Some(1000),
    };
    session.add(fact, 7);
}

// A session with an assertion for each check but that of the role DUP.
fn bound(alloc: Global) -> Result<Option<Session>, NoMemory> {
    let Some(mut session) = start(alloc)? else {
        return Ok(None);
    };
    add(
        &mut session,
        Assertion::Pcr {
            mask: 1,
            pcr_digest: Digest32::ZERO,
            values: Digests::new(alloc),
        },
    );
    add(
        &mut session,
        Assertion::CommandCode(CommandCode::NvRead.number()),
    );
    add(&mut session, Assertion::Locality(1));
    add(&mut session, Assertion::PhysicalPresence);
    add(&mut session, Assertion::CpHash(Digest32::ZERO));
    add(&mut session, Assertion::NvWritten(true));
    add(&mut session, Assertion::Password);
    Ok(Some(session))
}

// A use that such a session allows, on an entity with this authPolicy.
fn allowed(auth_policy: &[u8]) -> Attempt<'_> {
    Attempt {
        code: CommandCode::NvRead.number(),
        duplicate_role: false,
        locality: 0,
        presence: true,
        time: 1000,
        pcr_counter: 7,
        cp_hash: Digest32::ZERO,
        name_hash: Digest32::ZERO,
        nv_written: Some(true),
        auth_policy,
        auth_value: VALUE,
        nonce_caller: &[],
        attributes: 0,
        hmac: VALUE,
    }
}

// The code of an attempt: 0 where it is allowed.
fn code_of(session: &Session, attempt: &Attempt<'_>) -> u32 {
    match check_use(session, attempt) {
        Ok(()) => 0,
        Err(check) => code_of_check(check),
    }
}

#[test]
fn one_thing_wrong(rt: HostRuntime) -> Result<(), Fail> {
    let Some(session) = bound(rt.alloc())? else {
        return Err(Fail::new("no session"));
    };
    let digest = session.digest();
    let right = allowed(&digest.bytes);
    let other = Digest32::from_slice(&[1; 32]);
    let attempts: [(Attempt<'_>, u32); 11] = [
        (right, 0),
        (
            Attempt {
                pcr_counter: 8,
                ..right
            },
            0x128,
        ),
        (allowed(&[]), 0x99d),
        (
            Attempt {
                time: 1001,
                ..right
            },
            0x9a3,
        ),
        (
            Attempt {
                code: 0x14f,
                ..right
            },
            0x9a4,
        ),
        (
            Attempt {
                locality: 1,
                ..right
            },
            0x907,
        ),
        (
            Attempt {
                presence: false,
                ..right
            },
            0x990,
        ),
        (
            Attempt {
                cp_hash: other,
                ..right
            },
            0x99d,
        ),
        (
            Attempt {
                nv_written: Some(false),
                ..right
            },
            0x99d,
        ),
        (
            Attempt {
                nv_written: None,
                ..right
            },
            0x99d,
        ),
        (
            Attempt {
                hmac: b"pix",
                ..right
            },
            0x98e,
        ),
    ];
    for (attempt, code) in &attempts {
        assert_eq!(rt; code_of(&session, attempt), *code);
    }
    Ok(())
}

#[test]
fn the_role_of_duplicate(rt: HostRuntime) -> Result<(), Fail> {
    let Some(mut session) = start(rt.alloc())? else {
        return Err(Fail::new("no session"));
    };
    let role = CommandCode::Duplicate.number();
    add(&mut session, Assertion::Password);
    let digest = session.digest();
    let attempt = Attempt {
        code: role,
        ..allowed(&digest.bytes)
    };
    assert_eq!(rt; code_of(&session, &attempt), 0);
    let attempt = Attempt {
        duplicate_role: true,
        ..attempt
    };
    assert_eq!(rt; code_of(&session, &attempt), 0x99d);
    add(&mut session, Assertion::CommandCode(role));
    let digest = session.digest();
    let attempt = Attempt {
        auth_policy: &digest.bytes,
        ..attempt
    };
    assert_eq!(rt; code_of(&session, &attempt), 0);
    Ok(())
}
