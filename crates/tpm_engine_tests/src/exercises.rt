//! A machine under whole command buffers: the worked ones, each cut to every shorter length, and a hundred thousand
//! in a row; and a reset. The replies follow from TPM 2.0 Part 3 and a hash function.
//!
//! The proof of a function proves the drop of each value that it holds, wherever it may end early. So a machine is held by
//! one function that ends in one place, and what it is put through stands in others that are lent it.

ghost use Rattle.tpol_name.specs.Setups.{IsSetup};

use std::alloc::Global;
use tpm_engine::{EventView, Machine};
use tpol_name::Sight;
use tpol_scene::{Scene, read_scene};

/// A sealed object whose policy is PolicyAuthValue, and an index of one byte, as a scene.
pub const ENTITIES: &str =
    r#"{"time":7,"entities":[{"kind":"seal","path":"/s","handle":"0x80000000","secret":"6b6579","authPolicy":"8fcd2169ab92694e0c633f1ab772842b8241bbc20288981fc7ac1eddc1fddb0e"},{"kind":"nv","path":"/i","handle":"0x01000001","attributes":"0x00020002","size":1}]}"#;

/// StartAuthSession of a policy session.
const START: &[u8] =
    b"\x80\x01\x00\x00\x00\x3b\x00\x00\x01\x76\x40\x00\x00\x07\x40\x00\x00\x07\x00\x20\
      \x00\x00\x00\x00\x00\x00\x00\x00\x00\x00\x00\x00\x00\x00\x00\x00\x00\x00\x00\x00\
      \x00\x00\x00\x00\x00\x00\x00\x00\x00\x00\x00\x00\x00\x00\x01\x00\x10\x00\x0b";

/// PolicyGetDigest of the first session.
const GET_DIGEST: &[u8] = b"\x80\x01\x00\x00\x00\x0e\x00\x00\x01\x89\x03\x00\x00\x00";

/// PolicyAuthValue on it.
const AUTH_VALUE: &[u8] = b"\x80\x01\x00\x00\x00\x0e\x00\x00\x01\x6b\x03\x00\x00\x00";

/// PCR_Extend of PCR 23 with 32 zero bytes, by an empty password.
const PCR_EXTEND: &[u8] =
    b"\x80\x02\x00\x00\x00\x41\x00\x00\x01\x82\x00\x00\x00\x17\x00\x00\x00\x09\x40\x00\
      \x00\x09\x00\x00\x01\x00\x00\x00\x00\x00\x01\x00\x0b\x00\x00\x00\x00\x00\x00\x00\
      \x00\x00\x00\x00\x00\x00\x00\x00\x00\x00\x00\x00\x00\x00\x00\x00\x00\x00\x00\x00\
      \x00\x00\x00\x00\x00";

/// PCR_Read of PCR 23.
const PCR_READ: &[u8] =
    b"\x80\x01\x00\x00\x00\x14\x00\x00\x01\x7e\x00\x00\x00\x01\x00\x0b\x03\x00\x00\x80";

/// PolicyNV on the first session: the index's byte is 0x05.
const POLICY_NV: &[u8] =
    b"\x80\x02\x00\x00\x00\x2a\x00\x00\x01\x49\x40\x00\x00\x01\x01\x00\x00\x01\x03\x00\
      \x00\x00\x00\x00\x00\x09\x40\x00\x00\x09\x00\x00\x01\x00\x00\x00\x01\x05\x00\x00\
      \x00\x00";

/// NV_Write of the byte 0x05 to the index, by its empty value.
const NV_WRITE: &[u8] =
    b"\x80\x02\x00\x00\x00\x24\x00\x00\x01\x37\x40\x00\x00\x01\x01\x00\x00\x01\x00\x00\
      \x00\x09\x40\x00\x00\x09\x00\x00\x01\x00\x00\x00\x01\x05\x00\x00";

/// PolicyLocality of locality 0 on the first session.
const LOCALITY_0: &[u8] = b"\x80\x01\x00\x00\x00\x0f\x00\x00\x01\x6f\x03\x00\x00\x00\x01";

/// PolicyLocality of locality 1 on it.
const LOCALITY_1: &[u8] = b"\x80\x01\x00\x00\x00\x0f\x00\x00\x01\x6f\x03\x00\x00\x00\x02";

/// PolicySecret of the endorsement hierarchy on it.
const SECRET: &[u8] =
    b"\x80\x02\x00\x00\x00\x29\x00\x00\x01\x51\x40\x00\x00\x0b\x03\x00\x00\x00\x00\x00\
      \x00\x09\x40\x00\x00\x09\x00\x00\x01\x00\x00\x00\x00\x00\x00\x00\x00\x00\x00\x00\
      \x00";

/// Unseal of the object by it, after which it is to end.
const UNSEAL: &[u8] =
    b"\x80\x02\x00\x00\x00\x1b\x00\x00\x01\x5e\x80\x00\x00\x00\x00\x00\x00\x09\x03\x00\
      \x00\x00\x00\x00\x00\x00\x00";

/// The reply to bytes whose size field is not their number.
const REFUSED: &[u8] = b"\x80\x01\x00\x00\x00\x0a\x00\x00\x01\x42";

/// A success without parameters.
const OK: &[u8] = b"\x80\x01\x00\x00\x00\x0a\x00\x00\x00\x00";

/// The same by a password.
const SERVED: &[u8] =
    b"\x80\x02\x00\x00\x00\x13\x00\x00\x00\x00\x00\x00\x00\x00\x00\x00\x01\x00\x00";

/// The reply to the first StartAuthSession: its nonce is that of event 1.
const STARTED: &[u8] =
    b"\x80\x01\x00\x00\x00\x30\x00\x00\x00\x00\x03\x00\x00\x00\x00\x20\x6c\x61\x82\x7e\
      \x1e\x31\xe4\x67\xf7\xf1\xb9\xa2\xac\x88\x71\x17\x89\x03\xd6\xd7\xc8\x07\x6f\x46\
      \x39\x6f\x8f\xb7\x0a\x05\x3c\x9f";

/// The reply to PolicyGetDigest behind PolicyAuthValue alone.
const AUTH_VALUE_DIGEST: &[u8] =
    b"\x80\x01\x00\x00\x00\x2c\x00\x00\x00\x00\x00\x20\x8f\xcd\x21\x69\xab\x92\x69\x4e\
      \x0c\x63\x3f\x1a\xb7\x72\x84\x2b\x82\x41\xbb\xc2\x02\x88\x98\x1f\xc7\xac\x1e\xdd\
      \xc1\xfd\xdb\x0e";

/// The reply of a machine that has no such session.
const NO_SESSION: &[u8] = b"\x80\x01\x00\x00\x00\x0a\x00\x00\x09\x10";

/// The reply to PCR_Read of zero PCRs that were never extended.
const ZERO_READ: &[u8] =
    b"\x80\x01\x00\x00\x00\x3e\x00\x00\x00\x00\x00\x00\x00\x00\x00\x00\x00\x01\x00\x0b\
      \x03\x00\x00\x80\x00\x00\x00\x01\x00\x20\x00\x00\x00\x00\x00\x00\x00\x00\x00\x00\
      \x00\x00\x00\x00\x00\x00\x00\x00\x00\x00\x00\x00\x00\x00\x00\x00\x00\x00\x00\x00\
      \x00\x00";

/// The reply to PCR_Read behind 100,000 extends.
const LAST_READ: &[u8] =
    b"\x80\x01\x00\x00\x00\x3e\x00\x00\x00\x00\x00\x01\x86\xa0\x00\x00\x00\x01\x00\x0b\
      \x03\x00\x00\x80\x00\x00\x00\x01\x00\x20\x92\x25\x38\x90\x4d\x80\x70\xda\x6a\x98\
      \xa4\x4f\x9a\x19\x66\x17\x24\xc7\x75\xe3\x12\xc4\xc6\x7e\x2a\x67\xc0\xa3\x16\xf7\
      \xef\xa6";

/// PCR 23 after one extend.
const EXTENDED: [u8; 32] =
    *b"\xf5\xa5\xfd\x42\xd1\x6a\x20\x30\x27\x98\xef\x6e\xd3\x09\x97\x9b\x43\x00\x3d\x23\
      \x20\xd9\xf0\xe8\xea\x98\x31\xa9\x27\x59\xfb\x4b";

/// Each worked command.
static COMMANDS: [&[u8]; 11] = [
    START, GET_DIGEST, AUTH_VALUE, PCR_EXTEND, PCR_READ, POLICY_NV, NV_WRITE, LOCALITY_0,
    LOCALITY_1, SECRET, UNSEAL,
];

/// Commands behind which each of the others is carried out, and their replies.
static PREPARING: [(&[u8], &[u8]); 4] = [
    (START, STARTED),
    (AUTH_VALUE, OK),
    (NV_WRITE, SERVED),
    (PCR_EXTEND, SERVED),
];

/// Commands around a TPM Reset, before it and behind it, and their replies.
static BEFORE_RESET: [(&[u8], &[u8]); 2] = [(START, STARTED), (PCR_EXTEND, SERVED)];

static BEHIND_RESET: [(&[u8], &[u8]); 2] = [(GET_DIGEST, NO_SESSION), (PCR_READ, ZERO_READ)];

/// The machine of a scene.
fn machine_of(alloc: Global, scene: &str) -> Option<Machine> {
    match read_scene(alloc, scene.as_bytes()) {
        Ok(scene) => started(alloc, scene),
        Err(_) => None,
    }
}

fn started(alloc: Global, scene: Scene) -> Option<Machine>
    requires { IsSetup scene.setup }
{
    let Scene { setup, .. } = scene;
    Machine::new(alloc, setup).ok()
}

/// Whether a machine answers these bytes so.
fn answers(machine: &mut Machine, alloc: Global, command: &[u8], reply: &[u8]) -> bool {
    if machine.journal().len() >= 1_000_000 {
        return false;
    }
    match machine.execute(alloc, 1, 0, command) {
        Ok(done) => done.reply.as_slice() == reply,
        Err(_) => false,
    }
}

/// Whether a machine answers each of these commands so, one after the other.
fn answers_each(machine: &mut Machine, alloc: Global, commands: &[(&[u8], &[u8])]) -> bool {
    for (command, reply) in commands {
        if !answers(machine, alloc, command, reply) {
            return false;
        }
    }
    true
}

/// Whether this is seen behind the preparing commands.
fn is_prepared(sight: &Sight) -> bool {
    let [.., pcr_23] = sight.pcrs.as_slice() else {
        return false;
    };
    let [index] = sight.indices.as_slice() else {
        return false;
    };
    sight.time == 7
        && sight.pcr_counter == 1
        && sight.free_sessions == 63
        && pcr_23.bytes == EXTENDED
        && index.content.as_slice() == b"\x05".as_slice()
}

/// Whether a machine shows and answers what it does behind the preparing commands.
fn stands_prepared(machine: &mut Machine, alloc: Global) -> bool {
    match machine.sight(alloc) {
        Ok(sight) => {
            let answer = is_prepared(&sight);
            drop(sight);
            answer && answers(machine, alloc, GET_DIGEST, AUTH_VALUE_DIGEST)
        }
        Err(_) => false,
    }
}

/// Whether a prepared machine refuses this command at each shorter length, and stays as it is.
fn refuses_when_cut(machine: &mut Machine, alloc: Global, command: &[u8]) -> bool {
    for length in 0..command.len() {
        if !answers(machine, alloc, &command[..length], REFUSED)
            || !stands_prepared(machine, alloc)
        {
            return false;
        }
    }
    true
}

/// The same of each worked command.
fn refuses_each_when_cut(machine: &mut Machine, alloc: Global) -> bool {
    for command in &COMMANDS {
        if !refuses_when_cut(machine, alloc, command) {
            return false;
        }
    }
    true
}

/// Whether cut commands change nothing on a machine behind the preparing ones.
fn keeps_as_it_is(machine: &mut Machine, alloc: Global) -> bool {
    answers_each(machine, alloc, &PREPARING)
        && stands_prepared(machine, alloc)
        && refuses_each_when_cut(machine, alloc)
}

/// Whether a machine serves PCR_Extend so many times.
fn extends(machine: &mut Machine, alloc: Global, times: u32) -> bool {
    for _time in 0..times {
        if !answers(machine, alloc, PCR_EXTEND, SERVED) {
            return false;
        }
    }
    true
}

fn extends_in_a_row(machine: &mut Machine, alloc: Global) -> bool {
    extends(machine, alloc, 100_000) && answers(machine, alloc, PCR_READ, LAST_READ)
}

/// Whether five milliseconds pass on a machine that just started.
fn passes_time(machine: &mut Machine) -> bool {
    if machine.reserve().is_err() || machine.time() > 0 || machine.journal().len() > 1_000 {
        return false;
    }
    machine.advance(5);
    machine.time() == 5
}

/// Whether time begins anew with a reset.
fn resets(machine: &mut Machine) -> bool {
    if machine.reserve().is_err() || machine.journal().len() > 1_000 {
        return false;
    }
    machine.reset();
    machine.time() == 0
}

/// Whether a machine's journal tells this command and its reply in this place.
fn has_recorded(machine: &Machine, place: usize, command: &[u8], answer: &[u8]) -> bool {
    match machine.journal().get(place) {
        Some(EventView::Command { buffer, reply, .. }) => buffer == command && reply == answer,
        _ => false,
    }
}

/// Whether it tells what happened around a reset, in order.
fn has_recorded_all(machine: &Machine) -> bool {
    let journal = machine.journal();
    has_recorded(machine, 0, START, STARTED)
        && has_recorded(machine, 1, PCR_EXTEND, SERVED)
        && matches!(journal.get(2), Some(EventView::Time(5)))
        && matches!(journal.get(3), Some(EventView::Reset))
        && has_recorded(machine, 5, PCR_READ, ZERO_READ)
        && journal.get(6).is_none()
}

/// Whether a machine begins anew with a reset.
fn begins_anew(machine: &mut Machine, alloc: Global) -> bool {
    answers_each(machine, alloc, &BEFORE_RESET)
        && passes_time(machine)
        && resets(machine)
        && answers_each(machine, alloc, &BEHIND_RESET)
        && has_recorded_all(machine)
}

/// What a machine is put through.
#[derive(Clone, Copy)]
pub enum Exercise {
    /// Worked commands, each cut to every shorter length, behind preparing ones: they change nothing.
    Cuts,
    /// A hundred thousand extends in a row. A machine that goes over its journal at each command would take hours.
    Extends,
    /// A reset: time and PCRs begin anew, and the journal goes on.
    Reset,
}

fn passes(machine: &mut Machine, alloc: Global, exercise: Exercise) -> bool {
    match exercise {
        Exercise::Cuts => keeps_as_it_is(machine, alloc),
        Exercise::Extends => extends_in_a_row(machine, alloc),
        Exercise::Reset => begins_anew(machine, alloc),
    }
}

/// Whether the machine of a scene passes an exercise.
pub fn passes_of(alloc: Global, scene: &str, exercise: Exercise) -> bool {
    match machine_of(alloc, scene) {
        Some(mut machine) => {
            let answer = passes(&mut machine, alloc, exercise);
            drop(machine);
            answer
        }
        None => false,
    }
}
