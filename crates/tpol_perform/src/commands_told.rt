//! What a client's command leads to, and what is printed of it.

ghost use Rattle.std.specs.Prelude.{◌≡◌, ◌+◌, ◌^◌, ◌<◌, ◌≤◌, All, IfOk, IfSome, List, OnOk, length};
ghost use Rattle.tpm_engine.specs.Legal.{answer_to, opened_to};
ghost use Rattle.tpm_engine.specs.Views.{time_of};
ghost use Rattle.tpol_lines.specs.Events.{command_line};
ghost use Rattle.tpol_perform.specs.CommandsTold.{command_told, commanded, opening_told};
ghost use Rattle.tpol_perform.specs.Performance.{number_in, with_line};
ghost use Rattle.tpol_perform.specs.Meeting.{MeetsPolicy};
ghost use Rattle.tpol_prepare.specs.declared.entities.CompiledEntity.{CompiledEntity as CompiledEntityOf};
ghost use Rattle.tpol_prepare.specs.Manner.{explains};
ghost use Rattle.tpol_prepare.specs.Scenario.{HavePolicies, IsScenarioOf, IsWalkable};

use crate::performance::Performance;
use std::alloc::Global;
use tpm_engine::Executed;
use tpol_base::{Blob, NoMemory};
use tpol_lines::push_command_line;
use tpol_prepare::Scenario;

impl Performance {
    /// Sends the bytes of a client from a locality, and answers the reply. It fails only where memory ran out.
    #[tactic(auto, unfolding(crate::specs::CommandsTold::commanded))]
    pub fn command(
        &mut self,
        alloc: Global,
        scenario: &Scenario,
        client: u32,
        locality: u8,
        buffer: &[u8],
    ) -> Result<Blob, NoMemory>
        requires scenario { IsScenarioOf self.old.setup scenario.now }
        requires locality { locality ≤ 4 }
        requires few { length self.old.past < 2 ^ 31 }
        ensures told { OnOk result (self.new
            ≡ commanded scenario.now client locality buffer.now self.old) }
        ensures few { OnOk result (length self.new.past ≡ length self.old.past + 1) }
        ensures setup { OnOk result (self.new.setup ≡ self.old.setup) }
        ensures timeless { OnOk result (time_of self.new.setup self.new.past
            ≡ time_of self.old.setup self.old.past) }
        ensures reply { IfOk result (λ reply. reply
            ≡ (answer_to self.old.setup self.old.past locality buffer.now).reply) }
    {
        let executed = self.execute(alloc, client, locality, buffer)?;
        match self.tell_opening(alloc, scenario, &executed) {
            Ok(()) => Ok(reply_of(executed)),
            Err(NoMemory) => {
                drop(executed);
                Err(NoMemory)
            }
        }
    }

    // What is told of what was opened, where openings are told.
    fn tell_opening(
        &mut self,
        alloc: Global,
        scenario: &Scenario,
        executed: &Executed,
    ) -> Result<(), NoMemory>
        requires walked { All (λ entity. IsWalkable scenario.now.approvals entity.document.closed)
            scenario.now.entities }
        requires meets { IfSome executed.now.opened (MeetsPolicy scenario.now.entities) }
        ensures told { OnOk result (self.new
            ≡ opening_told (explains scenario.now.manner) scenario.now executed.now.event
            executed.now.opened self.old) }
        ensures past { OnOk result (self.new.past ≡ self.old.past) }
        ensures setup { OnOk result (self.new.setup ≡ self.old.setup) }
    {
        if scenario.manner.explains() {
            self.print_opening(alloc, scenario, executed.event, &executed.opened)
        } else {
            Ok(())
        }
    }

    // The event of a command, and its line.
    fn execute(
        &mut self,
        alloc: Global,
        client: u32,
        locality: u8,
        buffer: &[u8],
    ) -> Result<Executed, NoMemory>
        requires locality { locality ≤ 4 }
        requires few { length self.old.past < 2 ^ 31 }
        ensures told { OnOk result (self.new
            ≡ command_told client locality buffer.now
            (answer_to self.old.setup self.old.past locality buffer.now) self.old) }
        ensures event { IfOk result (λ done. done.event ≡ number_in self.old) }
        ensures reply { IfOk result (λ done. done.reply
            ≡ (answer_to self.old.setup self.old.past locality buffer.now).reply) }
        ensures opened { IfOk result (λ done. done.opened
            ≡ opened_to self.old.setup self.old.past locality buffer.now) }
        ensures meets { (entities : List CompiledEntityOf) → HavePolicies self.old.setup entities
            → IfOk result (λ done. IfSome done.opened (MeetsPolicy entities)) }
    {
        let done = self.machine.execute(alloc, client, locality, buffer)?;
        match self.print_command(client, locality, buffer, &done) {
            Ok(()) => Ok(done),
            Err(NoMemory) => {
                drop(done);
                Err(NoMemory)
            }
        }
    }

    // The line of a command that was executed.
    fn print_command(
        &mut self,
        client: u32,
        locality: u8,
        buffer: &[u8],
        done: &Executed,
    ) -> Result<(), NoMemory>
        ensures { OnOk result (self.new
            ≡ with_line (command_line done.now.event client locality buffer.now done.now.reply
            done.now.outcome) self.old) }
    {
        push_command_line(
            &mut self.lines,
            done.event,
            client,
            locality,
            buffer,
            done.reply.as_slice(),
            &done.outcome,
        )
    }
}

// The reply to a command that was executed.
fn reply_of(executed: Executed) -> Blob
    ensures { result ≡ executed.reply }
{
    let Executed { reply, opened, .. } = executed;
    drop(opened);
    reply
}
