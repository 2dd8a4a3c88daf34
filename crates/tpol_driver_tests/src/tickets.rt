//! Tickets of a run. The commands and the ticket are computed by another program (Python's `hashlib` and `hmac`) from
//! the rules of the commands, on a machine whose seed is 32 zero bytes.

use crate::courses::{Course, Script, Use, goes_by_each};
use crate::ends::{TICKET, Wanted};
use crate::plans::Act;
use crate::steps::Step;
use crate::vectors::{DENIED, NONCE_SEED, OK, START};

/// Its reply: the session 0x0300_0001.
const STARTED: &[u8] =
    b"\x80\x01\x00\x00\x00\x30\x00\x00\x00\x00\x03\x00\x00\x01\x00\x20\x55\x55\x55\x55\
      \x55\x55\x55\x55\x55\x55\x55\x55\x55\x55\x55\x55\x55\x55\x55\x55\x55\x55\x55\x55\
      \x55\x55\x55\x55\x55\x55\x55\x55";

/// PolicySecret of the endorsement hierarchy with the expiration -1.
const SECRET: &[u8] =
    b"\x80\x02\x00\x00\x00\x49\x00\x00\x01\x51\x40\x00\x00\x0b\x03\x00\x00\x01\x00\x00\
      \x00\x09\x40\x00\x00\x09\x00\x00\x01\x00\x00\x00\x20\x55\x55\x55\x55\x55\x55\x55\
      \x55\x55\x55\x55\x55\x55\x55\x55\x55\x55\x55\x55\x55\x55\x55\x55\x55\x55\x55\x55\
      \x55\x55\x55\x55\x55\x00\x00\x00\x00\xff\xff\xff\xff";

/// Its reply with the deadline 1,000 and a ticket.
const TICKETED: &[u8] =
    b"\x80\x02\x00\x00\x00\x45\x00\x00\x00\x00\x00\x00\x00\x32\x00\x08\x00\x00\x00\x00\
      \x00\x00\x03\xe8\x80\x23\x40\x00\x00\x01\x00\x20\x7c\xee\x05\x1b\xe5\x69\x77\xce\
      \x84\x5a\x60\xf6\xaa\x30\x1b\x16\xe6\x3b\xf4\x13\xd6\x98\xe9\x8f\x79\x08\x93\x8e\
      \xc0\x6f\x53\x9b\x00\x00\x01\x00\x00";

/// Its reply without a deadline.
const PLAIN: &[u8] =
    b"\x80\x02\x00\x00\x00\x1d\x00\x00\x00\x00\x00\x00\x00\x0a\x00\x00\x80\x23\x40\x00\
      \x00\x07\x00\x00\x00\x00\x01\x00\x00";

/// PolicyTicket with that ticket.
const TICKET_SHOWN: &[u8] =
    b"\x80\x01\x00\x00\x00\x4a\x00\x00\x01\x72\x03\x00\x00\x01\x00\x08\x00\x00\x00\x00\
      \x00\x00\x03\xe8\x00\x00\x00\x00\x00\x04\x40\x00\x00\x0b\x80\x23\x40\x00\x00\x01\
      \x00\x20\x7c\xee\x05\x1b\xe5\x69\x77\xce\x84\x5a\x60\xf6\xaa\x30\x1b\x16\xe6\x3b\
      \xf4\x13\xd6\x98\xe9\x8f\x79\x08\x93\x8e\xc0\x6f\x53\x9b";

/// Unseal with the nonce of the command 2.
const UNSEAL: &[u8] =
    b"\x80\x02\x00\x00\x00\x3b\x00\x00\x01\x5e\x80\x00\x00\x00\x00\x00\x00\x29\x03\x00\
      \x00\x01\x00\x20\xe8\xc1\xb0\x12\xd1\x42\x56\x71\x4a\xe8\x5e\x51\xde\x03\xfa\x06\
      \xf6\x11\x76\xb9\x0d\xc8\x28\x1f\xfb\xae\x8f\x1f\x1f\xab\x76\xcb\x00\x00\x00";

/// FlushContext.
const FLUSH: &[u8] = b"\x80\x01\x00\x00\x00\x0e\x00\x00\x01\x65\x03\x00\x00\x01";

/// The PolicySecret that earns it, as the move of a path.
const TICKETED_SECRET: Act = Act::Secret {
    entity: 0x4000_000b,
    expiration: -1,
};

/// A run that earns a ticket, and is denied its goal.
const EARNING_STEPS: [Step<'static>; 4] = [
    Step {
        command: START,
        reply: STARTED,
    },
    Step {
        command: SECRET,
        reply: TICKETED,
    },
    Step {
        command: UNSEAL,
        reply: DENIED,
    },
    Step {
        command: FLUSH,
        reply: OK,
    },
];

/// The same, where the reply has no deadline.
const NOT_EARNING_STEPS: [Step<'static>; 4] = [
    Step {
        command: START,
        reply: STARTED,
    },
    Step {
        command: SECRET,
        reply: PLAIN,
    },
    Step {
        command: UNSEAL,
        reply: DENIED,
    },
    Step {
        command: FLUSH,
        reply: OK,
    },
];

/// The same by the ticket.
const SHOWING_STEPS: [Step<'static>; 4] = [
    Step {
        command: START,
        reply: STARTED,
    },
    Step {
        command: TICKET_SHOWN,
        reply: OK,
    },
    Step {
        command: UNSEAL,
        reply: DENIED,
    },
    Step {
        command: FLUSH,
        reply: OK,
    },
];

/// A run that holds no ticket.
static KNOWING: Course = Course {
    path: &[TICKETED_SECRET],
    blind_paths: &[],
    goal: Use::Unseal {
        object: 0x8000_0000,
    },
    secrets: &[],
    keys: &[],
    directory: &[(0x8000_0000, [0x22; 32], 0x40)],
    tickets: &[],
    nonce_seed: NONCE_SEED,
};

/// One that holds a ticket with another policyRef, and two that stand for the move, the right one first.
static SHOWING: Course = Course {
    path: &[TICKETED_SECRET],
    blind_paths: &[],
    goal: Use::Unseal {
        object: 0x8000_0000,
    },
    secrets: &[],
    keys: &[],
    directory: &[(0x8000_0000, [0x22; 32], 0x40)],
    tickets: &[(b"ref", [0x11; 32]), (b"", TICKET), (b"", [0x22; 32])],
    nonce_seed: NONCE_SEED,
};

/// A reply with a deadline earns its ticket, and one without a deadline earns none.
static KNOWN: [Script; 2] = [
    Script {
        steps: &EARNING_STEPS,
        wanted: Wanted::Earned(1),
        failures: &[],
        flush: FLUSH,
    },
    Script {
        steps: &NOT_EARNING_STEPS,
        wanted: Wanted::Earned(0),
        failures: &[],
        flush: FLUSH,
    },
];

static SHOWN: [Script; 1] = [Script {
    steps: &SHOWING_STEPS,
    wanted: Wanted::Earned(0),
    failures: &[],
    flush: FLUSH,
}];

#[test]
fn a_reply_with_a_deadline_earns_its_ticket(rt: HostRuntime) {
    assert!(rt; goes_by_each(rt.alloc(), &KNOWING, &KNOWN));
}

#[test]
fn the_first_ticket_that_stands_for_a_move_is_shown(rt: HostRuntime) {
    assert!(rt; goes_by_each(rt.alloc(), &SHOWING, &SHOWN));
}
