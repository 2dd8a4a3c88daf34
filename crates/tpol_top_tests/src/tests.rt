//! Whole runs over objects in memory whose calls fail where a run says so: what they print and answer. What is
//! printed where nothing fails, `docs/check` compares as the built program prints it.
//!
//! The runs are a table, and the test holds nothing: `runs` carries them out.

use crate::runs::{Run, ends_as_told};
use std::alloc::Global;
use tpol_top::Status;

const SECRET: &str =
    r#"{"description":"ek","policy":[{"type":"POLICYSECRET","objectPath":"/HE"}]}"#;

// PCR 23 with 32 zero bytes.
const PCR_23_DIGEST: &str =
    "digest 3c87a4b3fb85ebeea58c5fb36ac22d3f280cec27a9f6dd0fa23be9ce560deec8\n";

const BEFORE_AN_OR: &str =
    r#"{"policy":[{"type":"POLICYCOMMANDCODE","code":"TPM2_CC_UNSEAL"},{"type":"POLICYOR","branches":[{"name":"a","policy":[{"type":"POLICYAUTHVALUE"}]},{"name":"b","policy":[{"type":"POLICYLOCALITY","locality":1}]}]}]}"#;

const VALUE: &str = r#"{"policy":[{"type":"POLICYAUTHVALUE"}]}"#;

const CURRENT_PCR: &str = r#"{"policy":[{"type":"POLICYPCR","currentPCRs":[23]}]}"#;

// The policy of a disk key: the measured boot and the key's own value, or the owner and Unseal alone.
const DISK: &str =
    r#"{"description":"disk","policy":[{"type":"POLICYOR","branches":[{"name":"boot","description":"","policy":[{"type":"POLICYPCR","currentPCRs":[0,2,4,7]},{"type":"POLICYAUTHVALUE"}]},{"name":"owner","description":"","policy":[{"type":"POLICYSECRET","objectPath":"/HS"},{"type":"POLICYCOMMANDCODE","code":"TPM2_CC_UNSEAL"}]}]}]}"#;

// A client that knows the key's value unseals it.
const BOOT: &str =
    r#"{"entities":[{"kind":"seal","path":"/s","handle":"0x80000000","auth":"70696e","secret":"6b6579","policy":"disk"}],"clients":[{"client":1,"secrets":[{"path":"/s","auth":"70696e"}]},{"client":2}],"script":[{"event":"begin","run":1,"client":1,"policy":"disk","goal":{"command":"Unseal","path":"/s"}},{"event":"turn","run":1}]}"#;

// What `explain` prints of this scene, as docs/worked-scenes.md has it.
static EXPLAINED: [&str; 8] = [
    "run 1 path 1 \"boot\"\n",
    "1 client 1 locality 0 code 00000176 rc 00000000 accepted reply 800100000030000000000300000000206c61827e1e31e467f7f1b9a2ac8871178903d6d7c8076f46396f8fb70a053c9f\n",
    "2 client 1 locality 0 code 0000017f rc 00000000 accepted reply 80010000000a00000000\n",
    "3 client 1 locality 0 code 0000016b rc 00000000 accepted reply 80010000000a00000000\n",
    "4 client 1 locality 0 code 00000171 rc 00000000 accepted reply 80010000000a00000000\n",
    "5 client 1 locality 0 code 0000015e rc 00000000 served reply 800200000058000000000000000500036b65790020651d25737d57d8b1a2d103af4aaee599180f87444b4f20b69d2ca1ec95edf63c000020e028e8531b8f3dd863c9db22c878f5509ab6066ee86d7c6cd9e07af52605ff85\n",
    "opening 5 path 1 \"boot\" events 2,3,4\n",
    "run 1 served 6b6579\n",
];

static STORE: [(&str, &str); 1] = [("disk.json", DISK)];

static RUNS: [Run<'static>; 6] = [
    Run {
        words: "compile",
        input: SECRET,
        documents: &[],
        source: &[2],
        sink: &[],
        shelf: &[],
        status: Status::ReadFault,
        printed: &[],
    },
    // Each line is one write.
    Run {
        words: "paths",
        input: BEFORE_AN_OR,
        documents: &[],
        source: &[],
        sink: &[3],
        shelf: &[],
        status: Status::WriteFault,
        printed: &[
            "path 1 \"a\" CommandCode,AuthValue,Or\n",
            "path 2 \"b\" CommandCode,Locality,Or\n",
        ],
    },
    Run {
        words: "compile --scene m",
        input: SECRET,
        documents: &[("m.scene", "{}")],
        source: &[],
        sink: &[],
        shelf: &[1],
        status: Status::ShelfFault,
        printed: &[],
    },
    // The shelf hands out the scene, and then does not list its names.
    Run {
        words: "compile --scene m",
        input: CURRENT_PCR,
        documents: &[("m.scene", "{}")],
        source: &[],
        sink: &[],
        shelf: &[2],
        status: Status::ShelfFault,
        printed: &[],
    },
    // The source is called until it answers that it is at its end, and the shelf for the scene and for the names of
    // its documents alone.
    Run {
        words: "compile --scene m",
        input: CURRENT_PCR,
        documents: &[("m.scene", "{}")],
        source: &[3],
        sink: &[],
        shelf: &[3],
        status: Status::Done,
        printed: &[PCR_23_DIGEST],
    },
    // `import` makes one call of the shelf, which puts the document: every other one fails here.
    Run {
        words: "import /policy/disk",
        input: SECRET,
        documents: &[],
        source: &[],
        sink: &[],
        shelf: &[2, 3, 4],
        status: Status::Done,
        printed: &["imported disk\n"],
    },
];

// Runs that have what they need, over objects that fail at every call that they are not to get.
static WHOLE_RUNS: [Run<'static>; 5] = [
    Run {
        words: "run",
        input: r#"{"script":[{"event":"presence","on":true},{"event":"time","ms":5},{"event":"command","client":1,"bytes":"8001"}]}"#,
        documents: &[],
        source: &[3],
        sink: &[4],
        shelf: &[2],
        status: Status::Done,
        printed: &[
            "1 presence on\n",
            "2 time 5\n",
            "3 client 1 locality 0 code -------- rc 00000142 refused reply 80010000000a00000142\n",
        ],
    },
    Run {
        words: "gen 3 0",
        input: "",
        documents: &[],
        source: &[1],
        sink: &[8],
        shelf: &[1],
        status: Status::Done,
        printed: &[
            "gen 3 0\n",
            "paths 8\n",
            "digest 60f0a4e2ec76d5be632d3f19557d65ca0e1fc30532d8fb5d600361a02640e151\n",
            "run 1 path 8 \"b\"/\"b\"/\"b\"\n",
            "commands 9\n",
            "9 client 1 locality 0 code 0000015e rc 00000000 served reply 8002000000580000000000000005000367656e0020f82428c464b1e3f6e2f567b1458c513cdec93c6f112dffad5af08524862b1cb800002021ec3ce202f4ca71cfdb4b573bd2ce5881ad5339f8b954bf8914795a00123807\n",
            "run 1 served 67656e\n",
        ],
    },
    Run {
        words: "canon",
        input: r#"{"policy":[{"type":"authvalue","x":1}]}"#,
        documents: &[],
        source: &[3],
        sink: &[2],
        shelf: &[1],
        status: Status::Done,
        printed: &["{\"description\":\"\",\"policy\":[{\"type\":\"POLICYAUTHVALUE\"}]}\n"],
    },
    // The shelf is asked for its names and for the one document.
    Run {
        words: "check one",
        input: "46504331000000018FCD2169ab92694e0c633f1ab772842b8241bbc20288981fc7ac1eddc1fddb0e\n",
        documents: &[("one.json", VALUE)],
        source: &[3],
        sink: &[3],
        shelf: &[3],
        status: Status::Done,
        printed: &[
            "path 1 -\n",
            "digest 8fcd2169ab92694e0c633f1ab772842b8241bbc20288981fc7ac1eddc1fddb0e\n",
        ],
    },
    Run {
        words: "check one",
        input: "46504331000000018fcd2169ab92694e0c633f1ab772842b8241bbc20288981fc7ac1eddc1fddb0f",
        documents: &[("one.json", VALUE)],
        source: &[3],
        sink: &[2],
        shelf: &[3],
        status: Status::BadCert,
        printed: &["error BadCert Differs 1\n"],
    },
];

#[test]
fn failures_are_told(rt: HostRuntime) {
    for run in &RUNS {
        assert!(rt; ends_as_told(rt.alloc(), run), "{}", run.words);
    }
}

#[test]
fn runs_that_have_what_they_need(rt: HostRuntime) {
    for run in &WHOLE_RUNS {
        assert!(rt; ends_as_told(rt.alloc(), run), "{}", run.words);
    }
}

// `explain` of the disk's scene, where these calls fail, if there are so many: it answers this, and prints so many
// of its lines.
fn explains(
    alloc: Global,
    failing: (&[u64], &[u64], &[u64]),
    status: Status,
    lines: usize,
) -> bool {
    let (source, sink, shelf) = failing;
    let run = Run {
        words: "explain",
        input: BOOT,
        documents: &STORE,
        source,
        sink,
        shelf,
        status,
        printed: &EXPLAINED[..lines.min(EXPLAINED.len())],
    };
    ends_as_told(alloc, &run)
}

#[test]
fn a_scene_is_explained_up_to_a_failure(rt: HostRuntime) {
    for line in 1..=EXPLAINED.len() {
        let sink = [line as u64];
        assert!(rt; explains(rt.alloc(), (&[], &sink, &[]), Status::WriteFault, line - 1));
    }
    for call in 1..=2 {
        assert!(rt; explains(rt.alloc(), (&[call], &[], &[]), Status::ReadFault, 0));
        assert!(rt; explains(rt.alloc(), (&[], &[], &[call]), Status::ShelfFault, 0));
    }
    assert!(rt;
        explains(
            rt.alloc(),
            (&[3], &[9], &[3]),
            Status::Done,
            EXPLAINED.len()
        )
    );
}
