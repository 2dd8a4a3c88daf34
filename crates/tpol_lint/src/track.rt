// What a walk keeps of the way that it is on.

ghost use Rattle.std.specs.Prelude.{◌≡◌, IfOk};
ghost use Rattle.tpol_lint.specs.Traces.{IsTrack, Trace, closing_trace, join, move_trace, no_trace, step_trace};
ghost use Rattle.tpol_tree.specs.declared.path.Move.TheVariants.{Assert};
ghost use Rattle.tpol_tree.specs.declared.path.PathStep.TheVariants.{Outside};

use crate::DeadRule;
use tpm_bindings::Bindings;
use tpol_base::NoMemory;
use tpol_tree::Assertion;

// What the moves so far bind, as long as they agree; how many they are; how many do not agree at least, and by which
// rule; and whether the way goes by a policy that no listed document has.
#[derive(Clone, Copy)]
pub struct Track {
    pub bindings: Bindings,
    pub done: u32,
    pub broken: Option<(u32, DeadRule)>,
    pub outside: bool,
}

impl Track {
    // A way without a choice and without a move.
    pub fn new() -> Track
        ensures start { IsTrack result no_trace }
    {
        Track {
            bindings: Bindings::new(),
            done: 0,
            broken: None,
            outside: false,
        }
    }

    // The way with one more assertion.
    pub fn after(self, assertion: &Assertion) -> Result<Track, NoMemory>
        ensures longer { (before : Trace) → IsTrack self before
            → IfOk result (λ track.
            IsTrack track (join before (move_trace (Assert assertion.now)))) }
    {
        let Some(done) = self.done.checked_add(1) else {
            return Err(NoMemory);
        };
        if self.broken.is_some() {
            return Ok(Track { done, ..self });
        }
        let mut bindings = self.bindings;
        bindings.bind(assertion);
        let broken = match bindings.disagreement() {
            Some(rule) => Some((done, rule)),
            None => None,
        };
        Ok(Track {
            bindings,
            done,
            broken,
            outside: self.outside,
        })
    }

    // The way with one more move, which closes an OR or an approval and binds nothing.
    pub fn after_closing(self) -> Result<Track, NoMemory>
        ensures longer { (before : Trace) → IsTrack self before
            → IfOk result (λ track. IsTrack track (join before closing_trace)) }
    {
        let Some(done) = self.done.checked_add(1) else {
            return Err(NoMemory);
        };
        Ok(Track { done, ..self })
    }

    // The way by a policy that no listed document has.
    pub fn by_outside(self) -> Track
        ensures longer { (before : Trace) → IsTrack self before
            → IsTrack result (join before (step_trace Outside)) }
    {
        Track {
            outside: true,
            ..self
        }
    }
}
