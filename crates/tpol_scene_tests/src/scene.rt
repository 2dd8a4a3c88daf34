//! Scenes in several spellings, and the first fault of others: what they hold, and kind and place, by hand after
//! docs/scenes.md.
//!
//! The proof of a function proves the drop of each value that it holds, wherever it may end early. So a scene is held by
//! one function that ends in one place, and what is asked of it stands in others that are lent it.

use std::alloc::Global;
use tpol_base::{NoMemory, Text};
use tpol_goal::Goal;
use tpol_json::{Place, place_text};
use tpol_scene::{Scene, SceneFault, SceneKind, ScriptEvent, read_scene};

/// A scene with entities of each kind, and with numbers, truth values and bytes in several spellings.
const SCENE: &str = r#"{
    "seed": "0x00000000000000000000000000000000000000000000000000000000000000FF",
    "owner": "6f776e00", "lockout": [1, 0],
    "pcrs": [{"pcr": "0x17", "digest": "ffffffffffffffffffffffffffffffffffffffffffffffffffffffffffffffff"}],
    "pcrCounter": 4294967295, "time": 5, "resetCount": 1, "restartCount": 2, "safe": "No", "presence": 1,
    "entities": [
        {"kind": "seal", "path": "/HS/SRK/s", "handle": 2147483648, "auth": "70696e", "secret": "6b6579"},
        {"kind": "nv", "path": "/P_RSA/nv", "handle": "0x01000001", "attributes": "0x00020012", "size": 8, "content": "0000000000000001"},
        {"kind": "key", "path": "k", "handle": "0x80000001", "policy": "/policy/disk", "secret": ""}
    ],
    "other": 1
}"#;

// The authorization values, the PCRs and the times of the scene.
fn has_start(scene: &Scene) -> bool {
    let setup = &scene.setup;
    let [.., last] = setup.pcrs.as_slice() else {
        return false;
    };
    setup.seed.bytes[31] == 255
        && setup.owner.as_slice() == b"own".as_slice()
        && setup.lockout.as_slice() == [1].as_slice()
        && last.bytes == [255; 32]
        && setup.pcr_counter == 4294967295
        && setup.time == 5
        && !setup.safe
        && setup.presence
}

// The entities of the scene, with their default attributes.
fn has_entities(scene: &Scene) -> bool {
    let [seal, key] = scene.setup.objects.as_slice() else {
        return false;
    };
    let [index] = scene.setup.indices.as_slice() else {
        return false;
    };
    seal.public.attributes == 0x40
        && key.public.attributes == 0x4_0040
        && index.public.attributes == 0x2002_0012
        && index.content.as_slice() == [0, 0, 0, 0, 0, 0, 0, 1].as_slice()
}

// The policy of the third entity, which stands behind one object and one index.
fn names_disk(scene: &Scene) -> bool {
    let [policy] = scene.policies.as_slice() else {
        return false;
    };
    policy.handle == 0x8000_0001
        && policy.objects_before == 1
        && policy.indices_before == 1
        && policy.name.as_str() == "disk"
}

/// A sealed object and a client that has its value, without zero bytes at its end.
const DISK: &str = r#"{
    "entities": [{"kind": "seal", "path": "/HS/SRK/disk", "handle": "0x80000000", "auth": "70696e", "policy": "disk", "secret": "6b6579"}],
    "clients": [{"client": 1, "secrets": [{"path": "/P_RSA/HS/SRK/disk", "auth": "70696e00"}, {"path": "/HE"}]}, {"client": 2}],
    "script": ["#;

/// Events of that scene, one of each kind.
const EVENTS: &str = r#"
    {"event": "command", "client": 7, "bytes": "80010000000e0000018903000000"},
    {"event": "begin", "run": 65535, "client": 1, "locality": 4, "policy": "/policy/disk", "goal": {"command": "tpm2_cc_UNSEAL", "path": "HS/SRK/disk"}},
    {"event": "turn", "run": 65535, "times": 2000}, {"event": "turn", "run": 65535},
    {"event": "time", "ms": 4294967295}, {"event": "presence", "on": "Yes"}, {"event": "reset"}"#;

// What a text is to be read as.
#[derive(Clone, Copy)]
enum Wanted<'a> {
    // The scene with entities of each kind.
    Entities,
    // That with an event of each kind.
    Events,
    // This kind of fault at this place.
    Fault(SceneKind, &'a str),
}

// The clients of the scene, and what they may use.
fn has_clients(scene: &Scene) -> bool {
    let [first, second] = scene.clients.as_slice() else {
        return false;
    };
    first.0 == 1
        && first.1.secret(0x8000_0000) == b"pin".as_slice()
        && first.1.has_secret(0x4000_000b)
        && second.0 == 2
        && !second.1.has_secret(0x8000_0000)
}

// Whether it is the run of the scene, which unseals the object.
fn is_begin(event: &ScriptEvent) -> bool {
    match event {
        ScriptEvent::Begin {
            run: 65535,
            client: 1,
            locality: 4,
            policy,
            goal: Goal::Unseal {
                object: 0x8000_0000,
            },
            ..
        } => policy.as_str() == "disk",
        _ => false,
    }
}

// The events of the scene.
fn has_events(scene: &Scene) -> bool {
    let [command, begin, turns, rest, time, presence, reset] = scene.script.as_slice() else {
        return false;
    };
    matches!(
        command,
        ScriptEvent::Command {
            client: 7,
            locality: 0,
            ..
        }
    ) && is_begin(begin)
        && matches!(
            turns,
            ScriptEvent::Turn {
                run: 65535,
                times: Some(2000),
            }
        )
        && matches!(
            rest,
            ScriptEvent::Turn {
                run: 65535,
                times: None,
            }
        )
        && matches!(time, ScriptEvent::Time(4294967295))
        && matches!(presence, ScriptEvent::Presence(true))
        && matches!(reset, ScriptEvent::Reset)
}

// Scenes, each with its first fault.
static REFUSED: [(&str, SceneKind, &str); 13] = [
    (
        r#"{"entities":null,"pcrs":0}"#,
        SceneKind::WrongKind,
        "pcrs",
    ),
    (
        r#"{"entities":[{}]}"#,
        SceneKind::Missing,
        "entities[0].kind",
    ),
    (
        r#"{"entities":[{"kind":"key","path":"k","handle":"0x80000000","policy":"a b","secret":""},0]}"#,
        SceneKind::WrongKind,
        "entities[1]",
    ),
    (
        r#"{"owner":"000000000000000000000000000000000000000000000000000000000000000000"}"#,
        SceneKind::BadHex,
        "owner",
    ),
    (
        r#"{"time":4611686018427387905}"#,
        SceneKind::BadNumber,
        "time",
    ),
    (
        r#"{"entities":[{"kind":"nv","path":"n","handle":"0x80000000"}]}"#,
        SceneKind::BadNumber,
        "entities[0].handle",
    ),
    (
        r#"{"entities":[{"kind":"Seal"}]}"#,
        SceneKind::UnknownKind,
        "entities[0].kind",
    ),
    (
        r#"{"entities":[{"kind":"key","path":"/P_X/k","handle":"0x80000000","secret":""},{"kind":"nv","path":"k"}]}"#,
        SceneKind::Twice,
        "entities[1].path",
    ),
    (
        r#"{"entities":[{"kind":"key","path":"k","handle":"0x80000000","authPolicy":"","policy":0}]}"#,
        SceneKind::Twice,
        "entities[0].policy",
    ),
    (
        r#"{"entities":[{"kind":"nv","path":"n","handle":"0x01000000","attributes":"0x10","size":9}]}"#,
        SceneKind::BadState,
        "entities[0].size",
    ),
    (
        r#"{"clients":[{"client":1,"secrets":[{"path":"HS"},{"path":"/P_X/HS","auth":null}]}]}"#,
        SceneKind::Twice,
        "clients[0].secrets[1].path",
    ),
    (
        r#"{"clients":[{"client":1,"keys":[{"path":"HS"}]}]}"#,
        SceneKind::NoSuchPath,
        "clients[0].keys[0].path",
    ),
    (
        r#"{"script":{},"clients":[{"client":1},{"client":"0x1"}]}"#,
        SceneKind::Twice,
        "clients[1].client",
    ),
];

// Events of the scene of the sealed object, each with its first fault.
static REFUSED_EVENTS: [(&str, SceneKind, &str); 9] = [
    (
        r#"{"event":"Begin"}"#,
        SceneKind::UnknownKind,
        "script[0].event",
    ),
    (
        r#"{"event":"command","client":9,"locality":5}"#,
        SceneKind::BadNumber,
        "script[0].locality",
    ),
    (
        r#"{"event":"begin","run":0,"client":9}"#,
        SceneKind::BadNumber,
        "script[0].run",
    ),
    (
        r#"{"event":"begin","run":1,"client":9}"#,
        SceneKind::NoSuchClient,
        "script[0].client",
    ),
    (
        r#"{"event":"begin","run":1,"client":2,"policy":"p","goal":{"command":"Sign"}}"#,
        SceneKind::UnknownKind,
        "script[0].goal.command",
    ),
    (
        r#"{"event":"begin","run":1,"client":2,"policy":"p","goal":{"command":"NV_Read","path":"HS/SRK/disk"}}"#,
        SceneKind::NoSuchPath,
        "script[0].goal.path",
    ),
    (
        r#"{"event":"begin","run":1,"client":2,"policy":"p","goal":{"command":"DUPLICATE","path":"HS/SRK/disk"}},{"event":"begin","run":1}"#,
        SceneKind::Twice,
        "script[1].run",
    ),
    (
        r#"{"event":"begin","run":1,"client":2,"policy":"p","goal":{"command":"hmac","path":"HS/SRK/disk","buffer":""}},{"event":"turn","run":1,"times":2001}"#,
        SceneKind::BadNumber,
        "script[1].times",
    ),
    (
        r#"{"event":"turn","run":1},{"event":"time"}"#,
        SceneKind::NoSuchRun,
        "script[0].run",
    ),
];

fn is_scene(scene: &Scene, wanted: Wanted) -> bool {
    match wanted {
        Wanted::Entities => has_start(scene) && has_entities(scene) && names_disk(scene),
        Wanted::Events => has_clients(scene) && has_events(scene),
        Wanted::Fault(..) => false,
    }
}

fn is_at(alloc: Global, at: &Place, place: &str) -> bool {
    match place_text(alloc, at) {
        Ok(text) => text.as_str() == place,
        Err(_) => false,
    }
}

fn is_fault(alloc: Global, fault: &SceneFault, wanted: Wanted) -> bool {
    match (fault, wanted) {
        (SceneFault::Bad { kind, place: at }, Wanted::Fault(found, place)) => {
            *kind == found && is_at(alloc, at, place)
        }
        _ => false,
    }
}

fn is_read(alloc: Global, text: &str, wanted: Wanted) -> bool {
    match read_scene(alloc, text.as_bytes()) {
        Ok(scene) => {
            let answer = is_scene(&scene, wanted);
            drop(scene);
            answer
        }
        Err(fault) => is_fault(alloc, &fault, wanted),
    }
}

// Makes a text the scene of the sealed object with these events.
fn put_events(text: &mut Text, events: &str) -> Result<(), NoMemory> {
    text.push_str(DISK)?;
    text.push_str(events)?;
    text.push_str("]}")
}

// The same of the scene of the sealed object with these events.
fn is_read_with(alloc: Global, events: &str, wanted: Wanted) -> bool {
    let mut text = Text::new(alloc);
    put_events(&mut text, events).is_ok() && is_read(alloc, text.as_str(), wanted)
}

#[test]
fn reads_scenes(rt: HostRuntime) {
    assert!(rt; is_read(rt.alloc(), SCENE, Wanted::Entities));
    assert!(rt; is_read_with(rt.alloc(), EVENTS, Wanted::Events));
}

#[test]
fn first_faults(rt: HostRuntime) {
    for (text, kind, place) in &REFUSED {
        assert!(rt; is_read(rt.alloc(), text, Wanted::Fault(*kind, place)));
    }
}

#[test]
fn first_faults_of_events(rt: HostRuntime) {
    for (events, kind, place) in &REFUSED_EVENTS {
        assert!(rt; is_read_with(rt.alloc(), events, Wanted::Fault(*kind, place)));
    }
}
