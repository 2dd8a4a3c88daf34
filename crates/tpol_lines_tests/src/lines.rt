//! Lines that are written by hand after the rules of lines: those of blind runs, and those that no scene brings about:
//! a reply that is none, a code of a VerifySignature that was judged before, checks that nothing can break between two
//! looks, and digests that break.

ghost use Rattle.std.specs.Prelude.{IfOk, List};
ghost use Rattle.tpol_lines.specs.OpeningLine.{IsListed};
ghost use Rattle.tpol_tree.specs.declared.path.Path.{Path};

use std::alloc::Global;
use tpol_base::{Blob, Check, NoMemory, Rc, Text};
use tpol_choose::{Block, Why};
use tpol_digest::check_paths;
use tpol_driver::{End, Stage, Tried};
use tpol_lines::{Lines, blind_line, end_line, opening_line, push_block_line, tried_line};
use tpol_trace::Opening;
use tpol_tree::{Approvals, Assertion, Closed, ClosedElement, ClosedElements};

fn reads(line: Result<Text, NoMemory>, wanted: &str) -> bool {
    match line {
        Ok(text) => text.as_str() == wanted,
        Err(_) => false,
    }
}

fn shows(line: Result<Blob, NoMemory>, wanted: &str) -> bool {
    match line {
        Ok(bytes) => bytes.as_slice() == wanted.as_bytes(),
        Err(_) => false,
    }
}

#[test]
fn ends_of_runs(rt: HostRuntime) {
    let ends = [
        (End::BadReply(Stage::Start), "run 7 badreply start"),
        (End::BadReply(Stage::Verify(4)), "run 7 badreply verify 4"),
        (End::BadReply(Stage::Move(12)), "run 7 badreply move 12"),
        (End::BadReply(Stage::Goal), "run 7 badreply goal"),
        (
            End::Denied {
                at: Stage::Verify(4),
                rc: Rc { code: 0x2db },
            },
            "run 7 denied verify 4 000002db",
        ),
    ];
    for (end, wanted) in &ends {
        assert!(rt; reads(end_line(rt.alloc(), 7, end), *wanted));
    }
}

#[test]
fn paths_of_blind_runs(rt: HostRuntime) {
    let paths = [
        (1, Tried::Skipped, "block 1 - skipped"),
        (
            1,
            Tried::Refused {
                at: Stage::Move(2),
                rc: Rc { code: 0x1c4 },
            },
            "block 1 - move 2 000001c4",
        ),
        (
            64,
            Tried::Refused {
                at: Stage::Verify(12),
                rc: Rc { code: 0x2db },
            },
            "block 64 - verify 12 000002db",
        ),
        (
            3,
            Tried::Refused {
                at: Stage::Goal,
                rc: Rc { code: 0x9a3 },
            },
            "block 3 - goal 000009a3",
        ),
    ];
    for (position, tried, wanted) in &paths {
        assert!(rt; reads(tried_line(rt.alloc(), *position, &[], tried), *wanted));
    }
}

#[test]
fn blind_runs(rt: HostRuntime) {
    let denied = End::Denied {
        at: Stage::Restart,
        rc: Rc { code: 0x910 },
    };
    assert!(rt; reads(blind_line(rt.alloc(), 3), "run 3 blind"));
    assert!(rt;
        reads(
            end_line(rt.alloc(), 3, &denied),
            "run 3 denied restart 00000910"
        )
    );
}

// A policy of a PolicyAuthValue.
fn value(alloc: Global) -> Result<Closed, NoMemory> {
    let element = ClosedElement::Assert(Assertion::AuthValue);
    Ok(Closed {
        elements: ClosedElements::More(
            Box::new(alloc, element)?,
            Box::new(alloc, ClosedElements::End)?,
        ),
    })
}

// Whether the opening of this policy behind this event, which names no path, has this line.
fn opens(alloc: Global, event: u32, policy: &Closed, opening: &Opening, wanted: &str) -> bool
    requires listed { (paths : List Path) → IsListed paths opening.now }
{
    let none = Approvals::new(alloc);
    match check_paths(policy, &none) {
        Ok(_) => shows(opening_line(alloc, event, policy, &none, opening), wanted),
        Err(_) => false,
    }
}

fn clash(alloc: Global) -> Result<Opening, NoMemory>
    ensures { IfOk result (λ opening. (paths : List Path) → IsListed paths opening) }
{
    let second = Blob::from_slice(alloc, b"\x00\xab")?;
    Ok(Opening::Clash {
        first: Blob::new(alloc),
        second,
    })
}

fn zero(alloc: Global) -> Result<Opening, NoMemory>
    ensures { IfOk result (λ opening. (paths : List Path) → IsListed paths opening) }
{
    Ok(Opening::ZeroInput {
        input: Blob::from_slice(alloc, b"\x01\xff")?,
    })
}

#[test]
fn broken_digests(rt: HostRuntime) -> Result<(), NoMemory> {
    let policy = value(rt.alloc())?;
    assert!(rt; opens(rt.alloc(), 5, &policy, &clash(rt.alloc())?, "clash 5  00ab"));
    assert!(rt;
        opens(
            rt.alloc(),
            4096,
            &policy,
            &zero(rt.alloc())?,
            "zero 4096 01ff"
        )
    );
    Ok(())
}

fn shows_block(rt: &HostRuntime, check: Check, wanted: &[u8]) -> bool {
    let block = Block {
        at: 0,
        why: Why::Deferred(check),
    };
    let mut lines = Lines::new(rt.alloc());
    let pushed = push_block_line(&mut lines, 3, b"-", &block).is_ok();
    let shows = pushed && lines.len() == 1 && lines.parts(0).0 == wanted;
    drop(lines);
    shows
}

#[test]
fn checks_of_a_goal(rt: HostRuntime) {
    assert!(rt;
        shows_block(
            &rt,
            Check::PcrChanged,
            b"block 3 - goal denied PcrChanged\n"
        )
    );
    assert!(rt; shows_block(&rt, Check::Expired, b"block 3 - goal denied Expired\n"));
}
