//! Response codes of policy commands as TPM 2.0 Part 3 gives them, done by hand, and the digest of a zero PCR.

use crate::answers::code_of;
use std::alloc::Global;
use std::test::Fail;
use tpm_auth::auth_ticket;
use tpm_pcr::{Clock, Pcrs};
use tpm_policy::{
    assert_command_code, assert_counter_timer, assert_locality, assert_nv, assert_pcr,
    assert_secret, assert_ticket,
};
use tpm_session::{Session, Sessions, fresh_facts};
use tpol_base::constants::TPM_ST_AUTH_SECRET;
use tpol_base::handle::{TPM_RH_ENDORSEMENT, TPM_RH_OWNER};
use tpol_base::{Blob, Compare, Digest32, Digests, Name, NoMemory, Text};
use tpol_name::{IndexEntry, NvPublic};

// The SHA-256 of 32 zero bytes.
const ZERO_PCR: &[u8; 32] = b"\x66\x68\x7a\xad\xf8\x62\xbd\x77\x6c\x8f\xc1\x8b\x8e\x9f\x8e\x20\
      \x08\x97\x14\x85\x6e\xe2\x33\xb3\x90\x2a\x59\x1d\x0d\x5f\x29\x25";

// A session that started at time 0, with the zero nonce.
fn started(alloc: Global) -> Result<Option<Session>, NoMemory> {
    let mut sessions = Sessions::new(alloc)?;
    match sessions.start(0, Digest32::ZERO, fresh_facts(alloc)?, 0) {
        Ok(handle) => Ok(sessions.take_out(handle)),
        Err(_) => Ok(None),
    }
}

fn start(alloc: Global) -> Result<Session, Fail> {
    match started(alloc)? {
        Some(session) => Ok(session),
        None => Err(Fail::new("no session")),
    }
}

fn locality_code(session: &mut Session, localities: u8) -> u32 {
    if session.room() == 0 {
        return u32::MAX;
    }
    code_of(assert_locality(session, 1, localities))
}

fn command_code(session: &mut Session, code: u32) -> u32 {
    if session.room() == 0 {
        return u32::MAX;
    }
    code_of(assert_command_code(session, 1, code))
}

fn pcr_code(alloc: Global, session: &mut Session, pcrs: &Pcrs, given: &[u8; 32]) -> u32 {
    if session.room() == 0 {
        return u32::MAX;
    }
    let given = Digest32::from_slice(given.as_slice());
    code_of(assert_pcr(alloc, session, 1, pcrs, 1 << 23, Some(given)))
}

fn timer_code(session: &mut Session, operand: Blob, offset: u16) -> u32 {
    if session.room() == 0 {
        return u32::MAX;
    }
    let clock = Clock {
        time: 0,
        reset_count: 0,
        restart_count: 0,
        safe: true,
    };
    code_of(assert_counter_timer(session, 1, &clock, operand, offset, Compare::Eq))
}

fn secret_code(session: &mut Session, time: u64, nonce: &[u8], policy_ref: Blob) -> u32 {
    if session.room() == 0 {
        return u32::MAX;
    }
    let entity = Name::Handle(TPM_RH_ENDORSEMENT);
    code_of(assert_secret(session, 1, entity, time, nonce, None, policy_ref, -1))
}

// A ticket for PolicySecret of the endorsement hierarchy until 1,000 milliseconds, made at reset count 0.
fn ticket_code(session: &mut Session, time: u64, reset_count: u32, policy_ref: Blob) -> u32 {
    if session.room() == 0 {
        return u32::MAX;
    }
    let tag = TPM_ST_AUTH_SECRET;
    let key = Name::Handle(TPM_RH_ENDORSEMENT);
    let ticket = auth_ticket(&Digest32::ZERO, tag, 1000, 0, b"", b"", &key);
    code_of(assert_ticket(
        session,
        1,
        time,
        &Digest32::ZERO,
        reset_count,
        1000,
        None,
        policy_ref,
        key,
        tag,
        TPM_RH_OWNER,
        &ticket.bytes,
    ))
}

// An index of one byte with the content 5.
fn index(alloc: Global, attributes: u32) -> Result<IndexEntry, NoMemory> {
    let content = Blob::from_slice(alloc, b"\x05")?;
    Ok(IndexEntry {
        path: Text::new(alloc),
        public: NvPublic {
            index: 0x0100_0001,
            attributes,
            auth_policy: Blob::new(alloc),
            size: 1,
        },
        auth: Blob::new(alloc),
        content,
    })
}

fn nv_code(session: &mut Session, entry: &IndexEntry, operand: Blob) -> u32 {
    if session.room() == 0 || entry.content.len() != usize::from(entry.public.size) {
        return u32::MAX;
    }
    code_of(assert_nv(session, 1, entry, operand, 0, Compare::Eq))
}

// Whether PolicyNV for the content 5 of an index with these attributes has this code.
fn nv_answers(alloc: Global, session: &mut Session, entry: &IndexEntry, code: u32) -> bool {
    match Blob::from_slice(alloc, b"\x05") {
        Ok(operand) => nv_code(session, entry, operand) == code,
        Err(_) => false,
    }
}

fn index_answers(alloc: Global, session: &mut Session, attributes: u32, code: u32) -> bool {
    match index(alloc, attributes) {
        Ok(entry) => nv_answers(alloc, session, &entry, code),
        Err(_) => false,
    }
}

static LOCALITIES: [(u8, u32); 5] = [(0, 0x1cd), (32, 0x1cd), (1, 0), (2, 0x1cd), (3, 0)];

static COMMANDS: [(u32, u32); 3] = [(0x15e, 0), (0x155, 0x1c4), (0x15e, 0)];

fn localities_answer(session: &mut Session) -> bool {
    for (localities, code) in &LOCALITIES {
        if locality_code(session, *localities) != *code {
            return false;
        }
    }
    true
}

fn commands_answer(session: &mut Session) -> bool {
    for (command, code) in &COMMANDS {
        if command_code(session, *command) != *code {
            return false;
        }
    }
    true
}

fn four_facts(session: &mut Session) -> bool {
    localities_answer(session) && commands_answer(session) && session.facts().len() == 4
}

#[test]
fn localities_and_commands(rt: HostRuntime) -> Result<(), Fail> {
    let mut session = start(rt.alloc())?;
    assert!(rt; four_facts(&mut session));
    Ok(())
}

fn zero_pcrs(alloc: Global) -> Result<Pcrs, NoMemory> {
    let values = Digests::from_slice(alloc, &[Digest32::ZERO; 24])?;
    Ok(Pcrs::new(values, 7))
}

// A digest of other values is refused, and the right one too, once a PCR was extended.
fn pcrs_answer(alloc: Global, session: &mut Session, pcrs: &mut Pcrs) -> bool {
    pcr_code(alloc, session, pcrs, &[0; 32]) == 0x1c4
        && pcr_code(alloc, session, pcrs, ZERO_PCR) == 0
        && pcrs.extend(0, &Digest32::ZERO).is_ok()
        && pcr_code(alloc, session, pcrs, ZERO_PCR) == 0x128
}

fn zero_pcrs_answer(alloc: Global, session: &mut Session) -> bool {
    match zero_pcrs(alloc) {
        Ok(mut pcrs) => pcrs_answer(alloc, session, &mut pcrs),
        Err(_) => false,
    }
}

#[test]
fn pcrs(rt: HostRuntime) -> Result<(), Fail> {
    let mut session = start(rt.alloc())?;
    assert!(rt; zero_pcrs_answer(rt.alloc(), &mut session));
    Ok(())
}

// An index that was never written, and one that was.
fn indices_answer(alloc: Global, session: &mut Session) -> bool {
    index_answers(alloc, session, 0x0002_0002, 0x14a)
        && index_answers(alloc, session, 0x2002_0002, 0)
}

// An operand of one byte, its offset, and the code of PolicyCounterTimer.
static TIMES: [(u8, u16, u32); 3] = [(0, 25, 0x1cd), (0, 24, 0x126), (1, 24, 0)];

fn timer_answers(alloc: Global, session: &mut Session, byte: u8, offset: u16, code: u32) -> bool {
    match Blob::from_slice(alloc, &[byte]) {
        Ok(operand) => timer_code(session, operand, offset) == code,
        Err(_) => false,
    }
}

fn times_answer(alloc: Global, session: &mut Session) -> bool {
    for (byte, offset, code) in &TIMES {
        if !timer_answers(alloc, session, *byte, *offset, *code) {
            return false;
        }
    }
    true
}

#[test]
fn indices_and_the_clock(rt: HostRuntime) -> Result<(), Fail> {
    let mut session = start(rt.alloc())?;
    assert!(rt; indices_answer(rt.alloc(), &mut session) && times_answer(rt.alloc(), &mut session));
    Ok(())
}

// A nonce of 31 bytes, a time behind the deadline, and one at it.
fn secrets_answer(alloc: Global, session: &mut Session) -> bool {
    secret_code(session, 1000, &[0; 31], Blob::new(alloc)) == 0x1cf
        && secret_code(session, 1001, &[0; 32], Blob::new(alloc)) == 0x4e3
        && secret_code(session, 1000, &[0; 32], Blob::new(alloc)) == 0
}

// A time behind the deadline, another reset count, and the ticket as it was made.
fn tickets_answer(alloc: Global, session: &mut Session) -> bool {
    ticket_code(session, 1001, 0, Blob::new(alloc)) == 0x1e3
        && ticket_code(session, 1000, 1, Blob::new(alloc)) == 0x5e0
        && ticket_code(session, 1000, 0, Blob::new(alloc)) == 0
}

#[test]
fn secrets_and_their_tickets(rt: HostRuntime) -> Result<(), Fail> {
    let mut session = start(rt.alloc())?;
    assert!(rt;
        secrets_answer(rt.alloc(), &mut session) && tickets_answer(rt.alloc(), &mut session)
    );
    Ok(())
}
