//! How far a scene was carried out, and the changes of the surroundings.

ghost use Rattle.std.specs.Prelude.{◌≡◌, ◌+◌, ◌^◌, ◌<◌, ◌≤◌, IfOk, OnOk, length};
ghost use Rattle.tpm_engine.specs.Views.{time_of};
ghost use Rattle.tpm_world.specs.Surroundings.{counted_on};
ghost use Rattle.tpol_name.specs.Setups.{IsSetup};
ghost use Rattle.tpol_perform.specs.Performance.{presence_set, start_of, time_passed, was_reset, with_line};

use crate::tickets::Kept;
use std::alloc::Global;
use std::marker::Model;
use tpm_engine::Machine;
use tpol_base::{NoMemory, Sequence};
use tpol_lines::{Lines, presence_line, reset_line, time_line};
use tpol_name::Setup;
use tpol_runs::Runs;

/// How far a scene was carried out; contracts see what the machine started from, its events, newest first, the
/// runs that were begun, the tickets that are kept for later ones, and the lines that are printed. A call on it fails
/// only where memory ran out, and nothing is said of it then.
#[derive(Drop)]
pub struct Performance {
    pub machine: Machine,
    pub runs: Runs,
    pub kept: Sequence<Kept>,
    pub lines: Lines,
    /// The machine's reset count.
    pub reset_count: u32,
}

impl Model for Performance {
    ghost use Rattle.tpol_perform.specs.Performance.{PerformanceState};

    ghost Value = { PerformanceState };

    ghost view = { λ p. record { setup = p.machine.setup; past = p.machine.events; runs = p.runs; kept = p.kept; lines = p.lines } };

    ghost use Rattle.std.specs.Prelude.{◌≡◌};
    ghost use Rattle.tpm_engine.specs.Views.{reset_count_of};

    ghost invariant = { λ p. p.reset_count ≡ reset_count_of p.machine.setup p.machine.events };
}

impl Performance {
    /// A machine that starts from this setup, before its first event. It fails only where memory ran out.
    pub fn new(alloc: Global, setup: Setup) -> Result<Performance, NoMemory>
        requires { IsSetup setup }
        ensures { IfOk result (λ performance. performance ≡ start_of setup) }
    {
        let reset_count = setup.reset_count;
        let machine = Machine::new(alloc, setup)?;
        Ok(Performance {
            machine,
            runs: Runs::new(alloc),
            kept: Sequence::new(alloc),
            lines: Lines::new(alloc),
            reset_count,
        })
    }

    /// Prints one more line, whose line end is added here. It fails only where memory ran out.
    pub fn print(&mut self, line: &str) -> Result<(), NoMemory>
        ensures { OnOk result (self.new ≡ with_line line.now self.old) }
    {
        self.lines.push_line(line)
    }

    /// Prints one more line of these bytes, whose line end is added here. It fails only where memory ran out.
    pub fn print_bytes(&mut self, line: &[u8]) -> Result<(), NoMemory>
        ensures { OnOk result (self.new ≡ with_line line.now self.old) }
    {
        self.lines.push_bytes(line)
    }

    /// So many milliseconds pass. The call fails only where memory ran out.
    #[tactic(auto, unfolding(tpm_engine::specs::Views::time_of))]
    pub fn pass_time(&mut self, alloc: Global, ms: u32) -> Result<(), NoMemory>
        requires few { length self.old.past < 2 ^ 31 }
        requires early { time_of self.old.setup self.old.past + ms ≤ 2 ^ 63 }
        ensures told { OnOk result (self.new ≡ time_passed ms self.old) }
        ensures setup { OnOk result (self.new.setup ≡ self.old.setup) }
        ensures few { OnOk result (length self.new.past ≡ length self.old.past + 1) }
        ensures time { OnOk result (time_of self.new.setup self.new.past
            ≡ time_of self.old.setup self.old.past + ms) }
    {
        self.machine.reserve()?;
        let event = self.machine.advance(ms);
        let line = time_line(alloc, event, ms)?;
        self.print(line.as_str())
    }

    /// Physical presence is on or off from now on. The call fails only where memory ran out.
    #[tactic(auto, unfolding(tpm_engine::specs::Views::time_of))]
    pub fn set_presence(&mut self, alloc: Global, on: bool) -> Result<(), NoMemory>
        requires few { length self.old.past < 2 ^ 31 }
        ensures told { OnOk result (self.new ≡ presence_set on self.old) }
        ensures setup { OnOk result (self.new.setup ≡ self.old.setup) }
        ensures few { OnOk result (length self.new.past ≡ length self.old.past + 1) }
        ensures time { OnOk result (time_of self.new.setup self.new.past
            ≡ time_of self.old.setup self.old.past) }
    {
        self.machine.reserve()?;
        let event = self.machine.set_presence(on);
        let line = presence_line(alloc, event, on)?;
        self.print(line.as_str())
    }

    /// A TPM Reset. The call fails only where memory ran out.
    #[tactic(auto, unfolding(tpm_engine::specs::Views::time_of))]
    pub fn reset(&mut self, alloc: Global) -> Result<(), NoMemory>
        requires few { length self.old.past < 2 ^ 31 }
        ensures told { OnOk result (self.new ≡ was_reset self.old) }
        ensures setup { OnOk result (self.new.setup ≡ self.old.setup) }
        ensures few { OnOk result (length self.new.past ≡ length self.old.past + 1) }
        ensures time { OnOk result (time_of self.new.setup self.new.past ≡ 0) }
    {
        self.machine.reserve()?;
        let event = self.machine.reset();
        self.reset_count = counted_on(self.reset_count);
        let line = reset_line(alloc, event)?;
        self.print(line.as_str())
    }
}

// The reset count behind a Reset.
fn counted_on(reset_count: u32) -> u32
    ensures { result ≡ counted_on reset_count }
{
    reset_count.saturating_add(1)
}
