//! Blind runs. The commands are computed by another program (Python's `hashlib`) from the rules of the commands; the
//! replies are written by hand.

use crate::courses::{Course, Script, Use, goes_by_each};
use crate::ends::Wanted;
use crate::plans::Act;
use crate::steps::Step;
use crate::vectors::{DENIED, NONCE_SEED, OK, START};
use tpol_base::Rc;
use tpol_driver::{Stage, Tried};

/// The reply to StartAuthSession: the session 0x0300_0000.
const STARTED: &[u8] =
    b"\x80\x01\x00\x00\x00\x30\x00\x00\x00\x00\x03\x00\x00\x00\x00\x20\x6c\x61\x82\x7e\
      \x1e\x31\xe4\x67\xf7\xf1\xb9\xa2\xac\x88\x71\x17\x89\x03\xd6\xd7\xc8\x07\x6f\x46\
      \x39\x6f\x8f\xb7\x0a\x05\x3c\x9f";

/// The PolicyPCR of the first path.
const PCRS: &[u8] =
    b"\x80\x01\x00\x00\x00\x3a\x00\x00\x01\x7f\x03\x00\x00\x00\x00\x20\x0b\x0b\x0b\x0b\
      \x0b\x0b\x0b\x0b\x0b\x0b\x0b\x0b\x0b\x0b\x0b\x0b\x0b\x0b\x0b\x0b\x0b\x0b\x0b\x0b\
      \x0b\x0b\x0b\x0b\x0b\x0b\x0b\x0b\x00\x00\x00\x01\x00\x0b\x03\x95\x00\x00";

/// Its digest.
const OF_PCRS: [u8; 32] = [0x0b; 32];

/// PolicyPCR refused: 0x1c4 (TPM_RC_VALUE, parameter 1).
const NOT_THE_PCRS: &[u8] = b"\x80\x01\x00\x00\x00\x0a\x00\x00\x01\xc4";

/// PolicyRestart.
const RESTART: &[u8] = b"\x80\x01\x00\x00\x00\x0e\x00\x00\x01\x80\x03\x00\x00\x00";

/// The PolicySecret of the third path.
const SECRET: &[u8] =
    b"\x80\x02\x00\x00\x00\x4e\x00\x00\x01\x51\x40\x00\x00\x01\x03\x00\x00\x00\x00\x00\
      \x00\x0e\x40\x00\x00\x09\x00\x00\x01\x00\x05\x6f\x77\x6e\x65\x72\x00\x20\x6c\x61\
      \x82\x7e\x1e\x31\xe4\x67\xf7\xf1\xb9\xa2\xac\x88\x71\x17\x89\x03\xd6\xd7\xc8\x07\
      \x6f\x46\x39\x6f\x8f\xb7\x0a\x05\x3c\x9f\x00\x00\x00\x00\x00\x00\x00\x00";

/// Its reply.
const SECRET_OK: &[u8] =
    b"\x80\x02\x00\x00\x00\x1d\x00\x00\x00\x00\x00\x00\x00\x0a\x00\x00\x80\x23\x40\x00\
      \x00\x07\x00\x00\x00\x00\x01\x00\x00";

/// The PolicyCommandCode of the third path.
const CODE: &[u8] = b"\x80\x01\x00\x00\x00\x12\x00\x00\x01\x6c\x03\x00\x00\x00\x00\x00\x01\x5e";

/// The digests of the branches.
const FIRST: [u8; 32] = [0x0c; 32];

const OTHER: [u8; 32] = [0x0d; 32];

/// The PolicyOR of both.
const BRANCHES: &[u8] =
    b"\x80\x01\x00\x00\x00\x56\x00\x00\x01\x71\x03\x00\x00\x00\x00\x00\x00\x02\x00\x20\
      \x0c\x0c\x0c\x0c\x0c\x0c\x0c\x0c\x0c\x0c\x0c\x0c\x0c\x0c\x0c\x0c\x0c\x0c\x0c\x0c\
      \x0c\x0c\x0c\x0c\x0c\x0c\x0c\x0c\x0c\x0c\x0c\x0c\x00\x20\x0d\x0d\x0d\x0d\x0d\x0d\
      \x0d\x0d\x0d\x0d\x0d\x0d\x0d\x0d\x0d\x0d\x0d\x0d\x0d\x0d\x0d\x0d\x0d\x0d\x0d\x0d\
      \x0d\x0d\x0d\x0d\x0d\x0d";

/// Unseal with the nonce of the command 6.
const UNSEAL: &[u8] =
    b"\x80\x02\x00\x00\x00\x3b\x00\x00\x01\x5e\x80\x00\x00\x00\x00\x00\x00\x29\x03\x00\
      \x00\x00\x00\x20\x26\xe0\x5b\x92\x66\xa2\x57\x24\xa3\xa4\x09\x38\x34\xf2\x06\x8d\
      \x30\x7c\x7f\x15\xd4\xa8\x9f\x3a\x00\xd0\xd8\x53\xb1\x8d\x65\xba\x00\x00\x00";

/// Its reply: `key`.
const UNSEALED: &[u8] =
    b"\x80\x02\x00\x00\x00\x38\x00\x00\x00\x00\x00\x00\x00\x05\x00\x03\x6b\x65\x79\x00\
      \x20\xaa\xaa\xaa\xaa\xaa\xaa\xaa\xaa\xaa\xaa\xaa\xaa\xaa\xaa\xaa\xaa\xaa\xaa\xaa\
      \xaa\xaa\xaa\xaa\xaa\xaa\xaa\xaa\xaa\xaa\xaa\xaa\xaa\x00\x00\x00";

/// FlushContext.
const FLUSH: &[u8] = b"\x80\x01\x00\x00\x00\x0e\x00\x00\x01\x65\x03\x00\x00\x00";

/// PolicyRestart refused: 0x910 (TPM_RC_REFERENCE_H0).
const NO_RESTART: &[u8] = b"\x80\x01\x00\x00\x00\x0a\x00\x00\x09\x10";

/// What Unseal gives.
const KEY: &[u8] = b"key";

// The steps of the runs.

const STARTS: Step<'static> = Step {
    command: START,
    reply: STARTED,
};

const HAS_OTHER_PCRS: Step<'static> = Step {
    command: PCRS,
    reply: NOT_THE_PCRS,
};

const BEGINS_ANEW: Step<'static> = Step {
    command: RESTART,
    reply: OK,
};

const KNOWS_THE_OWNER: Step<'static> = Step {
    command: SECRET,
    reply: SECRET_OK,
};

const HAS_THE_CODE: Step<'static> = Step {
    command: CODE,
    reply: OK,
};

const JOINS_THE_BRANCHES: Step<'static> = Step {
    command: BRANCHES,
    reply: OK,
};

const ENDS: Step<'static> = Step {
    command: FLUSH,
    reply: OK,
};

/// The first path is refused at its PCRs, the second one is skipped, and the third one is served.
const SERVED: [Step<'static>; 7] = [
    STARTS,
    HAS_OTHER_PCRS,
    BEGINS_ANEW,
    KNOWS_THE_OWNER,
    HAS_THE_CODE,
    JOINS_THE_BRANCHES,
    Step {
        command: UNSEAL,
        reply: UNSEALED,
    },
];

/// The same, and the third one is refused its goal.
const REFUSED: [Step<'static>; 8] = [
    STARTS,
    HAS_OTHER_PCRS,
    BEGINS_ANEW,
    KNOWS_THE_OWNER,
    HAS_THE_CODE,
    JOINS_THE_BRANCHES,
    Step {
        command: UNSEAL,
        reply: DENIED,
    },
    ENDS,
];

/// What becomes of the paths then.
const REFUSALS: [Tried; 3] = [
    Tried::Refused {
        at: Stage::Move(1),
        rc: Rc { code: 0x1c4 },
    },
    Tried::Skipped,
    Tried::Refused {
        at: Stage::Goal,
        rc: Rc { code: 0x9a3 },
    },
];

/// PolicyRestart is refused.
const RESTART_REFUSED: [Step<'static>; 4] = [
    STARTS,
    HAS_OTHER_PCRS,
    Step {
        command: RESTART,
        reply: NO_RESTART,
    },
    ENDS,
];

/// The reply to PolicyRestart is that of another command.
const RESTART_MALFORMED: [Step<'static>; 4] = [
    STARTS,
    HAS_OTHER_PCRS,
    Step {
        command: RESTART,
        reply: STARTED,
    },
    ENDS,
];

/// The reply to StartAuthSession has no session.
const START_MALFORMED: [Step<'static>; 1] = [Step {
    command: START,
    reply: OK,
}];

/// The paths, of which the second one has a key that is in no directory.
const PATHS: [&[Act]; 3] = [
    &[
        Act::Pcrs(OF_PCRS),
        Act::AuthValue,
        Act::Branches(FIRST, OTHER),
    ],
    &[Act::Signed {
        policy_ref: b"",
        cp_hash: None,
        expiration: 0,
    }],
    &[
        Act::Secret {
            entity: 0x4000_0001,
            expiration: 0,
        },
        Act::CommandCode(0x15e),
        Act::Branches(FIRST, OTHER),
    ],
];

static TRYING: Course = Course {
    path: &[],
    blind_paths: &PATHS,
    goal: Use::Unseal {
        object: 0x8000_0000,
    },
    secrets: &[(0x4000_0001, b"owner")],
    keys: &[],
    directory: &[(0x8000_0000, [0x22; 32], 0x40)],
    tickets: &[],
    nonce_seed: NONCE_SEED,
};

/// The second try is served, each is refused, and runs fail between two tries.
static SCRIPTS: [Script; 5] = [
    Script {
        steps: &SERVED,
        wanted: Wanted::Served(3, KEY),
        failures: &[],
        flush: FLUSH,
    },
    Script {
        steps: &REFUSED,
        wanted: Wanted::NoBranch(&REFUSALS),
        failures: &[],
        flush: FLUSH,
    },
    Script {
        steps: &RESTART_REFUSED,
        wanted: Wanted::Failed(0x910, Stage::Restart),
        failures: &[],
        flush: FLUSH,
    },
    Script {
        steps: &RESTART_MALFORMED,
        wanted: Wanted::Failed(0, Stage::Restart),
        failures: &[],
        flush: FLUSH,
    },
    Script {
        steps: &START_MALFORMED,
        wanted: Wanted::Failed(0, Stage::Start),
        failures: &[],
        flush: FLUSH,
    },
];

#[test]
fn tries_are_served_or_refused_or_fail_between_two(rt: HostRuntime) {
    assert!(rt; goes_by_each(rt.alloc(), &TRYING, &SCRIPTS));
}
