//! The ends of runs.

use tpol_base::Name;
use tpol_driver::{BlindEnd, End, HeldTicket, Stage, Tried};
use tpol_runs::Ended;

/// The end that a run is to have.
#[derive(Clone, Copy)]
pub enum Wanted<'a> {
    /// None: the run goes on.
    GoesOn,
    /// Served with these bytes: on the path at this position where the run is blind, else 0.
    Served(u32, &'a [u8]),
    /// Refused with this code at this stage, or a bad reply there where the code is 0.
    Failed(u32, Stage),
    /// This became of each path of a blind run.
    NoBranch(&'a [Tried]),
    /// With so many tickets, each of which is the one.
    Earned(usize),
}

/// The ticket that a run earns: the HMAC over its tag, the deadline, the reset count 0, no cpHashA, no policyRef and the
/// Name.
pub const TICKET: [u8; 32] =
    *b"\x7c\xee\x05\x1b\xe5\x69\x77\xce\x84\x5a\x60\xf6\xaa\x30\x1b\x16\xe6\x3b\xf4\x13\
      \xd6\x98\xe9\x8f\x79\x08\x93\x8e\xc0\x6f\x53\x9b";

fn is_served(path: u32, bytes: &[u8], wanted: &Wanted) -> bool {
    match wanted {
        Wanted::Served(position, secret) => path == *position && bytes == *secret,
        _ => false,
    }
}

fn is_failed(code: u32, at: Stage, wanted: &Wanted) -> bool {
    match wanted {
        Wanted::Failed(refusal, stage) => code == *refusal && at == *stage,
        _ => false,
    }
}

fn is_none(tries: &[Tried], wanted: &Wanted) -> bool {
    match wanted {
        Wanted::NoBranch(each) => tries == *each,
        _ => false,
    }
}

fn is_end(end: &End, wanted: &Wanted) -> bool {
    match end {
        End::Served(bytes) => is_served(0, bytes.as_slice(), wanted),
        End::Denied { at, rc } => is_failed(rc.code, *at, wanted),
        End::BadReply(at) => is_failed(0, *at, wanted),
    }
}

fn is_blind_end(end: &BlindEnd, wanted: &Wanted) -> bool {
    match end {
        BlindEnd::Served { path, bytes } => is_served(*path, bytes.as_slice(), wanted),
        BlindEnd::NoBranch(tries) => is_none(tries.as_slice(), wanted),
        BlindEnd::Denied { at, rc } => is_failed(rc.code, *at, wanted),
        BlindEnd::BadReply(at) => is_failed(0, *at, wanted),
    }
}

/// Whether this is the ticket of the endorsement hierarchy at the deadline 1,000.
fn is_the_ticket(ticket: &HeldTicket) -> bool {
    !ticket.signed
        && ticket.key == Name::Handle(0x4000_000b)
        && ticket.policy_ref.is_empty()
        && ticket.cp_hash.is_none()
        && ticket.deadline == 1000
        && ticket.reset_count == 0
        && ticket.digest.bytes == TICKET
}

fn are_earned(earned: &[HeldTicket], count: usize) -> bool {
    for ticket in earned {
        if !is_the_ticket(ticket) {
            return false;
        }
    }
    earned.len() == count
}

/// Whether a run that ended so has the end that is wanted.
pub fn is_wanted(ended: &Ended, wanted: &Wanted) -> bool {
    match ended {
        Ended::Sighted { end, earned } => match wanted {
            Wanted::Earned(count) => are_earned(earned.as_slice(), *count),
            _ => is_end(end, wanted),
        },
        Ended::Blind(_, end) => is_blind_end(end, wanted),
    }
}
