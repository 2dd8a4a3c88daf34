ghost use Rattle.std.specs.Prelude.{◌≡◌, ℕ, IfOk, None, Some, is_some, replicate, true, false};
ghost use Rattle.std.specs.Int.{bit_at};
ghost use Rattle.std.specs.Option.{option_map};
ghost use Rattle.tpm_session.specs.Slots as slots;
ghost use Rattle.tpm_context.specs.Saved as spec;

use crate::saved_session::SavedSession;
use std::alloc::Global;
use std::marker::Model;
use tpm_session::{Sessions, Table};
use tpol_base::NoMemory;

/// The sessions that are saved; contracts see the 64 slots of policy sessions, each with a saved session's
/// sequence number and state, or none. Only `new` takes memory.
#[derive(Drop)]
pub struct Saved {
    table: Table<SavedSession>,
}

impl Model for Saved {
    ghost use Rattle.std.specs.Prelude.{List, Option};
    ghost use Rattle.tpm_session.specs.Numbered.{IsNumbered, plain};
    ghost use Rattle.tpm_context.specs.Saved.{SavedState, saved_of, saved_state};

    ghost Value = { List (Option SavedState) };

    ghost view = { λ s. plain saved_state s.table };

    ghost invariant = { λ s. IsNumbered saved_of saved_state s.table };
}

impl Saved {
    /// No saved session, and room for 64.
    pub fn new(alloc: Global) -> Result<Saved, NoMemory>
        ensures { IfOk result (λ saved. saved ≡ replicate slots.slot_count None) }
    {
        Ok(Saved {
            table: Table::new(alloc)?,
        })
    }

    /// Saves a live session under a sequence number, so that it is no longer live. Answers whether the handle
    /// is live; where it is not, nothing changes.
    pub fn save(&mut self, sessions: &mut Sessions, handle: u32, sequence: u64) -> bool
        requires { spec.AreApart sessions.old self.old }
        ensures live { result ≡ slots.is_live sessions.old handle }
        ensures saved { result ≡ true → self.new ≡ slots.with_content self.old handle
            (option_map (λ state. record { sequence = sequence; state = state })
            (slots.state_at sessions.old handle)) }
        ensures sessions { sessions.new ≡ slots.with_state sessions.old handle None }
        ensures refused { result ≡ false → (self.new ≡ self.old) × (sessions.new ≡ sessions.old) }
        ensures apart { spec.AreApart sessions.new self.new }
    {
        let Some(session) = sessions.take_out(handle) else {
            return false;
        };
        self.put(SavedSession { sequence, session });
        true
    }

    /// Makes a saved session live again, as it was. Answers whether the handle is saved with this sequence
    /// number; where it is not, nothing changes.
    pub fn load(&mut self, sessions: &mut Sessions, handle: u32, sequence: u64) -> bool
        requires { spec.AreApart sessions.old self.old }
        ensures found { result ≡ spec.has_sequence (slots.content_at self.old handle) sequence }
        ensures saved { result ≡ true → self.new ≡ slots.with_content self.old handle None }
        ensures sessions { result ≡ true → sessions.new ≡ slots.with_state sessions.old handle
            (option_map (λ saved. saved.state) (slots.content_at self.old handle)) }
        ensures refused { result ≡ false → (self.new ≡ self.old) × (sessions.new ≡ sessions.old) }
        ensures apart { spec.AreApart sessions.new self.new }
    {
        if !self.is_saved_as(handle, sequence) {
            return false;
        }
        let Some(saved) = self.take_out(handle) else {
            return false;
        };
        sessions.put_back(saved.session);
        true
    }

    /// Ends a saved session. Answers whether the handle is saved; where it is not, nothing changes.
    pub fn flush(&mut self, handle: u32) -> bool
        ensures found { result ≡ spec.is_saved self.old handle }
        ensures slots { self.new ≡ slots.with_content self.old handle None }
        ensures refused { result ≡ false → self.new ≡ self.old }
    {
        self.take_out(handle).is_some()
    }

    /// Ends all saved sessions.
    pub fn clear(&mut self)
        ensures { self.new ≡ replicate slots.slot_count None }
    {
        self.table.clear();
    }

    /// The slots of saved sessions: bit k for the handle 0x0300_0000 + k.
    pub fn slots(&self) -> u64
        ensures value { result ≡ slots.bits_of self.now }
        ensures bits { (slot : ℕ)
            → bit_at result slot ≡ slots.bit_of (slots.in_slot self.now slot) }
    {
        self.table.occupied()
    }

    /// Whether the handle is saved.
    pub fn is_saved(&self, handle: u32) -> bool
        ensures { result ≡ spec.is_saved self.now handle }
    {
        self.table.get(handle).is_some()
    }

    /// Whether the handle is saved with this sequence number.
    pub fn is_saved_as(&self, handle: u32, sequence: u64) -> bool
        ensures { result ≡ spec.has_sequence (slots.content_at self.now handle) sequence }
    {
        match self.table.get(handle) {
            Some(saved) => saved.sequence == sequence,
            None => false,
        }
    }

    // Keeps a saved session in the slot of its handle.
    fn put(&mut self, saved: SavedSession)
        ensures { self.new ≡ slots.with_content self.old saved.session.handle
            (Some (spec.saved_state saved)) }
    {
        self.table.replace(saved.session.handle(), Some(saved));
    }

    // Hands a saved session out.
    fn take_out(&mut self, handle: u32) -> Option<SavedSession>
        ensures saved { result ≡ option_map (spec.saved_of handle)
            (slots.content_at self.old handle) }
        ensures slot { is_some result ≡ true → slots.IsSlotHandle handle }
        ensures slots { self.new ≡ slots.with_content self.old handle None }
    {
        self.table.replace(handle, None)
    }
}
