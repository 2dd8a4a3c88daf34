//! The machine.

ghost use Rattle.std.specs.Prelude.{◌≡◌, ◌∷◌, [], ◌+◌, ◌-◌, ◌<◌, ◌≤◌, ◌^◌, ◌↔◌, ℕ, length, min, IsSome, IfOk, IfSome, OnOk, OnErr, option_map, Some};
ghost use Rattle.tpol_digest.specs.Digest.{digest_of_moves};
ghost use Rattle.tpol_digest.specs.Sound.{IsSound};
ghost use Rattle.tpol_name.specs.Setups.{IsSetup, IsSight};
ghost use Rattle.tpol_wire.specs.declared.command.Command.{Command as CommandOf};
ghost use Rattle.tpol_wire.specs.Reading.{reading};
ghost use Rattle.tpm_bindings.specs.Agreement.{Agree};
ghost use Rattle.tpm_bindings.specs.Facts.{moves_of};
ghost use Rattle.tpm_rules.specs.declared.outcome.Outcome.TheVariants.{Served};
ghost use Rattle.tpm_rules.specs.Entity.{auth_policy_of};
ghost use Rattle.tpm_world.specs.Entities.{entity_at};
ghost use Rattle.tpm_world.specs.World.{world_of};
ghost use Rattle.tpm_engine.specs.declared.event.Event.TheVariants as events;
ghost use Rattle.tpm_engine.specs.Events.{event_of};
ghost use Rattle.tpm_engine.specs.Legal.{IsLegal, answer_to, opened_to};
ghost use Rattle.tpm_engine.specs.Sights.{sight_after};
ghost use Rattle.tpm_engine.specs.Uses as uses;
ghost use Rattle.tpm_engine.specs.Views.{facts_of, pcrs_of, time_of};

use crate::entry::Change;
use crate::{Executed, Journal, Prepared, Tables};
use std::alloc::Global;
use std::marker::Model;
use tpol_base::NoMemory;
use tpol_name::{Setup, Sight};
use tpol_wire::read_command;

/// A machine; contracts see what it started from, its events, newest first, and how many more have room. All
/// that it shows and answers is told by the setup and the events: `answer_to`, `opened_to` and the views.
#[derive(Drop)]
pub struct Machine {
    setup: Setup,
    tables: Tables,
    journal: Journal,
}

impl Model for Machine {
    ghost use Rattle.tpm_engine.specs.Journals.{MachineState};

    ghost Value = { MachineState };

    ghost view = { λ m. record { setup = m.setup; events = m.journal.events; spare = m.journal.spare } };

    ghost use Rattle.tpm_engine.specs.Legal.{IsMachine};

    ghost invariant = { λ m. IsMachine m.setup m.journal.events m.tables };
}

impl Machine {
    /// A machine that starts from this setup, with no event.
    pub fn new(alloc: Global, setup: Setup) -> Result<Machine, NoMemory>
        requires setup { IsSetup setup }
        ensures setup { IfOk result (λ machine. machine.setup ≡ setup) }
        ensures events { IfOk result (λ machine. machine.events ≡ []) }
    {
        let tables = Tables::new(alloc, &setup)?;
        Ok(Machine {
            setup,
            tables,
            journal: Journal::new(alloc),
        })
    }

    /// Executes the bytes that a client sends at a locality: one event, whatever they are. The reply and the
    /// outcome are those that `answer_to` tells over the events before; a command that is refused or denied
    /// changes nothing but the journal. Where a policy session authorized the command and it was served, the
    /// answer tells the entity that was opened, which is the command's first handle, and the session's facts.
    ///
    /// `NoMemory` is the only error, and the call is then no event: nothing changed but the room.
    pub fn execute(
        &mut self,
        alloc: Global,
        client: u32,
        locality: u8,
        buffer: &[u8],
    ) -> Result<Executed, NoMemory>
        requires locality { locality ≤ 4 }
        requires few { length self.old.events < 2 ^ 31 }
        // the event and the answer
        ensures setup { self.new.setup ≡ self.old.setup }
        ensures event { OnOk result (self.new.events
            ≡ event_of client locality buffer.now
            (answer_to self.old.setup self.old.events locality buffer.now) ∷ self.old.events) }
        ensures number { IfOk result (λ done. done.event ≡ length self.old.events + 1) }
        ensures reply { IfOk result (λ done. done.reply
            ≡ (answer_to self.old.setup self.old.events locality buffer.now).reply) }
        ensures outcome { IfOk result (λ done. done.outcome
            ≡ (answer_to self.old.setup self.old.events locality buffer.now).outcome) }
        // what a policy session opened
        ensures opened { IfOk result (λ done. done.opened
            ≡ opened_to self.old.setup self.old.events locality buffer.now) }
        ensures opens { IfOk result (λ done. IsSome done.opened
            ↔ uses.IsServedBySession self.old.setup self.old.events locality buffer.now) }
        ensures facts { IfOk result
            (λ done. IfSome done.opened
            (λ opened. option_map (facts_of self.old.setup self.old.events)
            (uses.session_in (reading buffer.now)) ≡ Some opened.facts)) }
        ensures sound { IfOk result
            (λ done. IfSome done.opened (λ opened. IsSound (moves_of opened.facts))) }
        ensures agree { IfOk result
            (λ done. IfSome done.opened (λ opened. Agree (moves_of opened.facts))) }
        ensures pcrs { IfOk result
            (λ done. IfSome done.opened
            (λ opened. uses.AreOfPcrs (pcrs_of self.old.setup self.old.events) opened.facts)) }
        ensures policy { IfOk result
            (λ done. IfSome done.opened
            (λ opened. option_map auth_policy_of (entity_at (world_of self.old.setup) opened.entity)
            ≡ Some (digest_of_moves (moves_of opened.facts)).bytes)) }
        // when a policy session authorizes a command, and when the command is served
        ensures authorizes { (command : CommandOf) (session : ℕ)
            → uses.AsksPolicySession self.old.setup self.old.events buffer.now command session
            → IfOk result (λ done. uses.IsNotDeniedByCheck done.outcome
            ↔ uses.Passes self.old.setup self.old.events locality command session) }
        ensures serves { (command : CommandOf) (session : ℕ)
            → uses.AsksPolicySession self.old.setup self.old.events buffer.now command session
            → IfOk result (λ done. (done.outcome ≡ Served)
            ↔ uses.IsServed self.old.setup self.old.events locality command session) }
        // without memory
        ensures err { OnErr result (self.new.events ≡ self.old.events) }
        ensures spare { OnErr result (self.old.spare ≤ self.new.spare) }
    {
        let event = self.journal.next_number();
        let read = read_command(alloc, buffer);
        let prepared = self.tables.prepare(alloc, event, locality, &read);
        let Ok(
            Prepared {
                reply,
                outcome,
                success,
            },
        ) = prepared
        else {
            drop(read);
            return Err(NoMemory);
        };
        let pushed = self
            .journal
            .push_command(client, locality, buffer, reply.as_slice(), outcome);
        if let Err(NoMemory) = pushed {
            drop(success);
            drop(reply);
            drop(read);
            return Err(NoMemory);
        }
        let opened = self.tables.finish(alloc, event, read, success);
        Ok(Executed {
            event,
            reply,
            outcome,
            opened,
        })
    }

    /// Lets so many milliseconds pass, and answers the number of the event. It takes no memory.
    pub fn advance(&mut self, ms: u32) -> u32
        requires room { 1 ≤ self.old.spare }
        requires few { length self.old.events < 2 ^ 31 }
        requires early { time_of self.old.setup self.old.events + ms ≤ 2 ^ 63 }
        ensures setup { self.new.setup ≡ self.old.setup }
        ensures event { self.new.events ≡ events.Time ms ∷ self.old.events }
        ensures number { result ≡ length self.old.events + 1 }
        ensures spare { self.new.spare + 1 ≡ self.old.spare }
    {
        let number = self.journal.next_number();
        self.tables.advance(ms);
        self.journal.push_change(Change::Time(ms));
        number
    }

    /// Turns physical presence on or off, and answers the number of the event. It takes no memory.
    pub fn set_presence(&mut self, on: bool) -> u32
        requires room { 1 ≤ self.old.spare }
        requires few { length self.old.events < 2 ^ 31 }
        ensures setup { self.new.setup ≡ self.old.setup }
        ensures event { self.new.events ≡ events.Presence on ∷ self.old.events }
        ensures number { result ≡ length self.old.events + 1 }
        ensures spare { self.new.spare + 1 ≡ self.old.spare }
    {
        let number = self.journal.next_number();
        self.tables.set_presence(on);
        self.journal.push_change(Change::Presence(on));
        number
    }

    /// A TPM Reset (TPM 2.0 Part 1, "TPM Reset"), of which it answers the event's number: all sessions end, the
    /// PCRs are zero and so is their counter, time begins at 0, the reset count rises by one unless it stands at its
    /// last value, and the restart count is 0. It takes no memory.
    pub fn reset(&mut self) -> u32
        requires room { 1 ≤ self.old.spare }
        requires few { length self.old.events < 2 ^ 31 }
        ensures setup { self.new.setup ≡ self.old.setup }
        ensures event { self.new.events ≡ events.Reset ∷ self.old.events }
        ensures number { result ≡ length self.old.events + 1 }
        ensures spare { self.new.spare + 1 ≡ self.old.spare }
    {
        let number = self.journal.next_number();
        self.tables.reset();
        self.journal.push_change(Change::Reset);
        number
    }

    /// Makes room for one more event that is no command, as `advance`, `set_presence` and `reset` ask it. Nothing else
    /// changes.
    pub fn reserve(&mut self) -> Result<(), NoMemory>
        ensures setup { self.new.setup ≡ self.old.setup }
        ensures events { self.new.events ≡ self.old.events }
        ensures ok { OnOk result (1 ≤ self.new.spare) }
        ensures spare { self.old.spare ≤ self.new.spare }
    {
        self.journal.reserve()
    }

    /// How many more events have room, at most 4,294,967,295.
    pub fn spare(&self) -> u32
        ensures room { result ≡ min self.now.spare (2 ^ 32 - 1) }
    {
        self.journal.spare()
    }

    /// The time in milliseconds.
    pub fn time(&self) -> u64
        ensures time { result ≡ time_of self.now.setup self.now.events }
        ensures early { result ≤ 2 ^ 63 }
    {
        self.tables.time()
    }

    /// What the machine shows at this moment.
    pub fn sight(&self, alloc: Global) -> Result<Sight, NoMemory>
        ensures view { IfOk result (λ sight. sight ≡ sight_after self.now.setup self.now.events) }
        ensures condition { IfOk result IsSight }
    {
        self.tables.sight(alloc)
    }

    /// All events.
    pub fn journal(&self) -> &Journal
        ensures events { result.now.events ≡ self.now.events }
        ensures spare { result.now.spare ≡ self.now.spare }
        ensures legal { IsLegal self.now.setup self.now.events }
    {
        &self.journal
    }
}
