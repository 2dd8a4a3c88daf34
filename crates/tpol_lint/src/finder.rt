// The dead ways that a walk has found.

ghost use Rattle.std.specs.Prelude.{◌≡◌, ◌∷◌, [], OnOk};
ghost use Rattle.tpol_lint.specs.Traces.{Finds, IsTrack, Trace, no_trace};

use crate::track::Track;
use crate::{Dead, DeadPaths};
use std::alloc::Global;
use tpol_base::NoMemory;

// How many ways are passed, and the dead ones among them.
#[derive(Drop)]
pub struct Finder {
    pub dead: DeadPaths,
    pub passed: u32,
}

impl Finder {
    // A finder that has passed no way.
    pub fn new(alloc: Global) -> Finder
        ensures dead { result.dead ≡ [] }
        ensures passed { result.passed ≡ 0 }
    {
        Finder {
            dead: DeadPaths::new(alloc),
            passed: 0,
        }
    }

    // Passes the way that is whole.
    pub fn pass(&mut self, track: Track) -> Result<(), NoMemory>
        ensures finds { (before : Trace) → IsTrack track before
            → OnOk result (Finds self.old self.new before (no_trace ∷ [])) }
    {
        let path = self.passed.checked_add(1).ok_or(NoMemory)?;
        self.passed = path;
        if track.outside {
            return Ok(());
        }
        match track.broken {
            Some((at, rule)) => self.dead.push(Dead { path, rule, at }),
            None => Ok(()),
        }
    }
}
