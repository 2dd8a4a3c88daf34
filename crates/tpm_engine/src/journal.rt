//! The events of a machine.

ghost use Rattle.std.specs.Prelude.{◌≡◌, [], ◌∷◌, ◌<◌, ◌≤◌, ◌+◌, ◌-◌, ◌^◌, length, reverse, slice_get, option_map, OnErr, OnOk, min};
ghost use Rattle.tpm_engine.specs.declared.event.Event.TheVariants as events;
ghost use Rattle.tpm_engine.specs.Journals.{LiesWithin, event_kept, event_of_change, event_seen};

use crate::EventView;
use crate::entry::{Change, Entry};
use std::alloc::Global;
use std::marker::Model;
use tpm_rules::Outcome;
use tpol_base::NoMemory;
use tpol_texts::Texts;

/// All events of a machine; contracts see them newest first, and how many more have room.
///
/// An event has no memory of its own: the bytes of all commands stand behind one another, and so do those of all
/// replies. Equal neighbours are kept once: where a command has the same bytes as the command before it, the journal
/// keeps no bytes for it, and the same goes for its reply. So a long run of like commands takes little memory.
#[derive(Drop)]
pub struct Journal {
    entries: Vec<Entry>,
    commands: Texts,
    replies: Texts,
}

impl Model for Journal {
    ghost use Rattle.std.specs.Prelude.{◌-◌, length, map, reverse, vec_len, All};
    ghost use Rattle.std.specs.Vec.{vec_capacity};
    ghost use Rattle.tpm_engine.specs.Journals.{JournalState, LiesWithin, event_kept};

    ghost Value = { JournalState };

    ghost view = { λ j. record { events = reverse (map (event_kept j.commands j.replies) j.entries.items); spare = vec_capacity j.entries - vec_len j.entries } };

    ghost invariant = { λ j. All (LiesWithin (length j.commands) (length j.replies)) j.entries.items };
}

impl Journal {
    /// No event; it takes no memory.
    pub(crate) fn new(alloc: Global) -> Journal
        ensures events { result.events ≡ [] }
    {
        Journal {
            entries: Vec::new(alloc),
            commands: Texts::new(alloc),
            replies: Texts::new(alloc),
        }
    }

    /// The event at `index`, counted from 0 at the oldest; `None` past the end.
    pub fn get(&self, index: usize) -> Option<EventView<'_>>
        ensures event { option_map event_seen result ≡ slice_get (reverse self.now.events) index }
    {
        let entry = self.entries.get(index)?;
        Some(view_of(&self.commands, &self.replies, *entry))
    }

    /// How many events there are.
    pub fn len(&self) -> usize
        ensures count { result ≡ length self.now.events }
    {
        self.entries.len()
    }

    /// How many more events have room, at most 4,294,967,295.
    pub fn spare(&self) -> u32
        ensures room { result ≡ min self.now.spare (2 ^ 32 - 1) }
    {
        let spare = self.entries.capacity() - self.entries.len();
        spare.min(u32::MAX as usize) as u32
    }

    /// The number of the event to come.
    pub(crate) fn next_number(&self) -> u32
        requires few { length self.now.events < 2 ^ 31 }
        ensures number { result ≡ length self.now.events + 1 }
    {
        self.entries.len() as u32 + 1
    }

    /// Makes room for one more event that is no command.
    pub(crate) fn reserve(&mut self) -> Result<(), NoMemory>
        ensures events { self.new.events ≡ self.old.events }
        ensures ok { OnOk result (1 ≤ self.new.spare) }
        ensures spare { self.old.spare ≤ self.new.spare }
    {
        self.entries.reserve(1)?;
        Ok(())
    }

    /// Adds the event of a command. Bytes that are those of the command before it are not kept again, nor is a reply
    /// that is the one before. After `NoMemory` the events are as before.
    pub(crate) fn push_command(
        &mut self,
        client: u32,
        locality: u8,
        buffer: &[u8],
        reply: &[u8],
        outcome: Outcome,
    ) -> Result<(), NoMemory>
        ensures ok { OnOk result (self.new.events
            ≡ events.Command client locality buffer.now reply.now outcome ∷ self.old.events) }
        ensures err { OnErr result (self.new.events ≡ self.old.events) }
        ensures spare { OnErr result (self.old.spare ≤ self.new.spare) }
    {
        self.entries.reserve(1)?;
        let buffer = self.commands.keep(buffer)?;
        let reply = self.replies.keep(reply)?;
        self.entries.push_reserved(Entry::Command {
            locality,
            client,
            outcome,
            buffer,
            reply,
        });
        Ok(())
    }

    /// Adds a change of the surroundings, which has room. It takes no memory.
    pub(crate) fn push_change(&mut self, change: Change)
        requires room { 1 ≤ self.old.spare }
        ensures events { self.new.events ≡ event_of_change change ∷ self.old.events }
        ensures spare { self.new.spare + 1 ≡ self.old.spare }
    {
        self.entries.push_reserved(Entry::Change(change));
    }
}

// The event of an entry, over the texts of its journal.
fn view_of<'a>(commands: &'a Texts, replies: &'a Texts, entry: Entry) -> EventView<'a>
    requires within { LiesWithin (length commands.now) (length replies.now) entry }
    ensures event { event_seen result ≡ event_kept commands.now replies.now entry }
{
    match entry {
        Entry::Command {
            locality,
            client,
            outcome,
            buffer,
            reply,
        } => EventView::Command {
            client,
            locality,
            buffer: commands.get(buffer),
            reply: replies.get(reply),
            outcome,
        },
        Entry::Change(Change::Time(ms)) => EventView::Time(ms),
        Entry::Change(Change::Presence(on)) => EventView::Presence(on),
        Entry::Change(Change::Reset) => EventView::Reset,
    }
}
