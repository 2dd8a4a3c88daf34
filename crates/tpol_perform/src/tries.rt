//! What became of the paths of a blind run.

ghost use Rattle.std.specs.Prelude.{◌≡◌, ◌≤◌, OnOk, length};
ghost use Rattle.tpol_lines.specs.TriedLine.{tried_line};
ghost use Rattle.tpol_perform.specs.Blind.{with_nobranch, with_tries};
ghost use Rattle.tpol_perform.specs.Performance.{with_line};

use crate::performance::Performance;
use std::alloc::Global;
use tpol_base::NoMemory;
use tpol_driver::Tried;
use tpol_lines::{nobranch_line, tried_line};
use tpol_tree::Path;

impl Performance {
    /// No path of a run was served: a line for each tells what became of it. The call fails only where memory ran out.
    pub fn print_nobranch(
        &mut self,
        alloc: Global,
        number: u16,
        paths: &[Path],
        tries: &[Tried],
    ) -> Result<(), NoMemory>
        requires few { length paths.now ≤ 65536 }
        ensures told { OnOk result (self.new ≡ with_nobranch number paths.now tries.now self.old) }
        ensures past { OnOk result (self.new.past ≡ self.old.past) }
        ensures setup { OnOk result (self.new.setup ≡ self.old.setup) }
    {
        let line = nobranch_line(alloc, number)?;
        self.print(line.as_str())?;
        self.print_tries(alloc, paths, tries)
    }

    // The lines of what became of each of these paths, from the first on.
    #[tactic(auto, using(crate::proofs::TryLines::tries_over))]
    fn print_tries(
        &mut self,
        alloc: Global,
        paths: &[Path],
        tries: &[Tried],
    ) -> Result<(), NoMemory>
        requires few { length paths.now ≤ 65536 }
        ensures told { OnOk result (self.new ≡ with_tries 1 paths.now tries.now self.old) }
        ensures past { OnOk result (self.new.past ≡ self.old.past) }
        ensures setup { OnOk result (self.new.setup ≡ self.old.setup) }
    {
        for index in 0..paths.len().min(tries.len()) {
            self.print_tried(alloc, index as u32 + 1, &paths[index], &tries[index])?;
        }
        Ok(())
    }

    // The line of what became of the path at this position.
    fn print_tried(
        &mut self,
        alloc: Global,
        position: u32,
        path: &Path,
        tried: &Tried,
    ) -> Result<(), NoMemory>
        ensures { OnOk result (self.new
            ≡ with_line (tried_line position path.now.steps tried.now) self.old) }
    {
        let line = tried_line(alloc, position, path.steps.as_slice(), tried)?;
        self.print(line.as_str())
    }
}
