//! How a blind run ended.

ghost use Rattle.std.specs.Prelude.{◌≡◌, ◌-◌, ◌≤◌, All, OnOk, length, slice_get};
ghost use Rattle.tpol_lines.specs.Runs.{end_line};
ghost use Rattle.tpol_perform.specs.Blind.{with_blind_end, with_path};
ghost use Rattle.tpol_perform.specs.Performance.{with_line};
ghost use Rattle.tpol_prepare.specs.Scenario.{IsWalkable, paths_named};

use crate::paths::paths_named;
use crate::performance::Performance;
use std::alloc::Global;
use tpol_base::NoMemory;
use tpol_driver::{BlindEnd, End};
use tpol_lines::end_line;
use tpol_prepare::Scenario;
use tpol_tree::Path;

impl Performance {
    /// The end of a blind run on the paths of the policy of this name: the path that was served, or what became of
    /// each, or at which command it failed. The call fails only where memory ran out.
    #[tactic(auto, unfolding(crate::specs::Blind::with_blind_end), using(crate::proofs::FewPaths::few_begun))]
    pub fn print_blind_end(
        &mut self,
        alloc: Global,
        scenario: &Scenario,
        number: u16,
        policy: &str,
        end: BlindEnd,
    ) -> Result<(), NoMemory>
        requires begun { All (λ document. IsWalkable scenario.now.approvals document.closed)
            scenario.now.begun }
        ensures told { OnOk result (self.new
            ≡ with_blind_end number (paths_named scenario.now policy.now) end self.old) }
        ensures past { OnOk result (self.new.past ≡ self.old.past) }
        ensures setup { OnOk result (self.new.setup ≡ self.old.setup) }
    {
        match paths_named(alloc, scenario, policy) {
            Ok(paths) => {
                let printed = self.print_end_on(alloc, number, paths.as_slice(), end);
                drop(paths);
                printed
            }
            Err(NoMemory) => {
                drop(end);
                Err(NoMemory)
            }
        }
    }

    // The same on these paths.
    #[tactic(auto, unfolding(crate::specs::Blind::with_blind_end))]
    fn print_end_on(
        &mut self,
        alloc: Global,
        number: u16,
        paths: &[Path],
        end: BlindEnd,
    ) -> Result<(), NoMemory>
        requires few { length paths.now ≤ 65536 }
        ensures told { OnOk result (self.new ≡ with_blind_end number paths.now end self.old) }
        ensures past { OnOk result (self.new.past ≡ self.old.past) }
        ensures setup { OnOk result (self.new.setup ≡ self.old.setup) }
    {
        match end {
            BlindEnd::Served { path, bytes } => {
                self.print_served(alloc, number, paths, path, End::Served(bytes))
            }
            BlindEnd::NoBranch(tries) => {
                let printed = self.print_nobranch(alloc, number, paths, tries.as_slice());
                drop(tries);
                printed
            }
            BlindEnd::Denied { at, rc } => self.print_end_line(
                alloc,
                number,
                End::Denied { at, rc },
            ),
            BlindEnd::BadReply(at) => self.print_end_line(alloc, number, End::BadReply(at)),
        }
    }

    // The path at this position, and the end behind it.
    fn print_served(
        &mut self,
        alloc: Global,
        number: u16,
        paths: &[Path],
        position: u32,
        end: End,
    ) -> Result<(), NoMemory>
        ensures told { OnOk result (self.new
            ≡ with_line (end_line number end)
            (with_path number position (slice_get paths.now (position - 1)) self.old)) }
        ensures past { OnOk result (self.new.past ≡ self.old.past) }
        ensures setup { OnOk result (self.new.setup ≡ self.old.setup) }
    {
        match self.print_path(alloc, number, paths, position) {
            Ok(()) => self.print_end_line(alloc, number, end),
            Err(NoMemory) => {
                drop(end);
                Err(NoMemory)
            }
        }
    }

    fn print_path(
        &mut self,
        alloc: Global,
        number: u16,
        paths: &[Path],
        position: u32,
    ) -> Result<(), NoMemory>
        ensures told { OnOk result (self.new
            ≡ with_path number position (slice_get paths.now (position - 1)) self.old) }
        ensures past { OnOk result (self.new.past ≡ self.old.past) }
        ensures setup { OnOk result (self.new.setup ≡ self.old.setup) }
    {
        match paths.get(position.saturating_sub(1) as usize) {
            None => Ok(()),
            Some(path) => self.print_chosen(alloc, number, position, path),
        }
    }

    /// The line of a run's end. The call fails only where memory ran out.
    pub fn print_end_line(&mut self, alloc: Global, number: u16, end: End) -> Result<(), NoMemory>
        ensures { OnOk result (self.new ≡ with_line (end_line number end) self.old) }
    {
        let printed = self.print_end_of(alloc, number, &end);
        drop(end);
        printed
    }

    fn print_end_of(&mut self, alloc: Global, number: u16, end: &End) -> Result<(), NoMemory>
        ensures { OnOk result (self.new ≡ with_line (end_line number end.now) self.old) }
    {
        let line = end_line(alloc, number, end)?;
        self.print(line.as_str())
    }
}
