ghost use Rattle.std.specs.Prelude.{◌≡◌, ◌∷◌, [], IfOk};
ghost use Rattle.tpol_lines.specs.Lines.{line_of};

use std::alloc::Global;
use tpol_base::NoMemory;
use tpol_lines::Lines;

/// How a command ends where neither the outside nor memory failed. What each end is says `Status` of tpol_front, which
/// has the same names.
#[derive(Clone, Copy)]
pub enum Verdict {
    Done,
    Usage,
    TooLarge,
    BadPolicy,
    BadScene,
    PathLimit,
    BadCert,
}

/// What a command has to say: its lines, each with its line end, and how it ends.
#[derive(Drop)]
pub struct Answer {
    pub lines: Lines,
    pub verdict: Verdict,
}

impl Answer {
    /// The answer of one line, whose line end is added here. It fails only where memory ran out.
    pub fn of_line(alloc: Global, line: &str, verdict: Verdict) -> Result<Answer, NoMemory>
        ensures { IfOk result (λ answer. answer
            ≡ record { lines = line_of line.now ∷ []; verdict = verdict }) }
    {
        let mut lines = Lines::new(alloc);
        lines.push_line(line)?;
        Ok(Answer { lines, verdict })
    }
}
