ghost use Rattle.std.specs.Prelude.{◌≡◌, ℕ, [], ◌+◌, ◌-◌, ◌<◌, ◌≤◌, ◌^◌, IfOk, IfSome, IsNone, OnErr, MatchOption, MatchResult, None, Some, replicate, true, false};
ghost use Rattle.std.specs.Borrow.{MutBor};
ghost use Rattle.std.specs.Fn.{FnOnceReturnsAtMut};
ghost use Rattle.std.specs.Option.{option_copied, option_map};
ghost use Rattle.tpm_session.specs.Kept as kept;
ghost use Rattle.tpm_session.specs.Kept.{SessionView};
ghost use Rattle.tpm_session.specs.Slots as spec;

use crate::table::{FIRST_HANDLE, SLOT_COUNT, Table};
use crate::{Full, Session};
use std::alloc::Global;
use std::marker::Model;
use tpol_base::{Digest32, NoMemory};
use tpol_tree::Facts;

/// The policy sessions of a TPM; contracts see its 64 slots in order, each with the state of a live session
/// or none. The session in slot k has the handle 0x0300_0000 + k. Only `new` takes memory.
#[derive(Drop)]
pub struct Sessions {
    table: Table<Session>,
}

impl Model for Sessions {
    ghost use Rattle.std.specs.Prelude.{List, Option};
    ghost use Rattle.tpm_bindings.specs.State.{SessionState};
    ghost use Rattle.tpm_session.specs.Slots.{session_of};
    ghost use Rattle.tpm_session.specs.Numbered.{IsNumbered, plain};
    ghost use Rattle.tpm_session.specs.Kept.{state_of_view};

    ghost Value = { List (Option SessionState) };

    ghost view = { λ s. plain state_of_view s.table };

    ghost invariant = { λ s. IsNumbered session_of state_of_view s.table };
}

impl Sessions {
    /// No live session, and room for 64.
    pub fn new(alloc: Global) -> Result<Sessions, NoMemory>
        ensures { IfOk result (λ sessions. sessions ≡ replicate spec.slot_count None) }
    {
        Ok(Sessions {
            table: Table::new(alloc)?,
        })
    }

    /// The live session with this handle.
    pub fn find(&self, handle: u32) -> Option<&Session>
        ensures { option_copied result ≡ spec.session_at self.now handle }
    {
        self.table.get(handle)
    }

    /// Starts a session at `time` in milliseconds, with this nonceTPM, in the least slot that is neither live
    /// nor among `taken` (bit k for slot k), and answers its handle. The facts are empty, and bring the
    /// session's room. `Full` comes exactly where there is no such slot.
    pub fn start(
        &mut self,
        time: u64,
        nonce: Digest32,
        facts: Facts,
        taken: u64,
    ) -> Result<u32, Full>
        requires empty { facts ≡ [] }
        requires early { time ≤ 2 ^ 63 }
        ensures handle { MatchResult result
            (λ handle. option_map spec.handle_of_slot (spec.first_free self.old taken)
            ≡ Some handle)
            (λ _. spec.first_free self.old taken ≡ None) }
        ensures least { IfOk result (λ handle. (slot : ℕ) → spec.handle_of_slot slot < handle
            → spec.is_free self.old taken slot ≡ false) }
        ensures free { IfOk result
            (λ handle. spec.is_free self.old taken (handle - spec.first_handle) ≡ true) }
        ensures full { OnErr result ((slot : ℕ) → slot < spec.slot_count
            → spec.is_free self.old taken slot ≡ false) }
        ensures slots { IfOk result (λ handle. self.new
            ≡ spec.with_state self.old handle (Some (kept.state_of time nonce [] None))) }
        ensures err { OnErr result (self.new ≡ self.old) }
    {
        let Some(slot) = self.first_free(taken) else {
            return Err(Full);
        };
        let handle = FIRST_HANDLE + slot;
        self.put_back(Session::new(handle, time, nonce, facts));
        Ok(handle)
    }

    /// How many slots are neither live nor among `taken` (bit k for slot k).
    pub fn free(&self, taken: u64) -> u32
        ensures { result ≡ spec.free_count self.now taken }
    {
        let mut count = 0;
        for slot in 0..SLOT_COUNT {
            if self.is_free(slot, taken) {
                count += 1;
            }
        }
        count
    }

    /// Hands the live session with this handle out, so that it is no longer live; `None` exactly where the
    /// handle is not live, and then nothing changes.
    pub fn take_out(&mut self, handle: u32) -> Option<Session>
        ensures session { result ≡ spec.session_at self.old handle }
        ensures slot { IfSome result (λ session. spec.IsSlotHandle session.handle) }
        ensures slots { self.new ≡ spec.with_state self.old handle None }
        ensures refused { IsNone result → self.new ≡ self.old }
    {
        self.table.take(handle)
    }

    /// Makes a session live again as it is.
    pub fn put_back(&mut self, session: Session)
        requires slot { spec.IsSlotHandle session.handle }
        requires apart { spec.state_at self.old session.handle ≡ None }
        ensures { self.new ≡ spec.with_state self.old session.handle (Some session.state) }
    {
        self.table.put(session.handle(), session);
    }

    /// Changes the live session with this handle where it lies; the change leaves its handle as it is. Where the
    /// handle is not live nothing changes.
    pub fn change<F: FnOnce(&mut Session)>(&mut self, handle: u32, change: F)
        requires takes { (session : MutBor SessionView)
            → spec.session_at self.old handle ≡ Some session.now → F.pre change session }
        requires stays { (before after : SessionView)
            → spec.session_at self.old handle ≡ Some before
            → FnOnceReturnsAtMut F.FnOnce change before tt after → after.handle ≡ before.handle }
        ensures slots { MatchOption (spec.session_at self.old handle) (self.new ≡ self.old)
            (λ before. (after : SessionView) × FnOnceReturnsAtMut F.FnOnce change before tt after
            × (self.new ≡ spec.with_state self.old handle (Some after.state))) }
    {
        self.table.change(handle, change);
    }

    /// Drops the facts of a live session; its start and nonce stay. Answers whether the handle is live; where it
    /// is not, nothing changes.
    pub fn restart(&mut self, handle: u32) -> bool
        ensures live { result ≡ spec.is_live self.old handle }
        ensures slots { self.new ≡ spec.changed_at self.old handle kept.without_facts }
        ensures refused { result ≡ false → self.new ≡ self.old }
    {
        let live = self.find(handle).is_some();
        self.change(handle, |session| session.restart());
        live
    }

    /// Ends a live session. Answers whether the handle was live; where it was not, nothing changes.
    pub fn flush(&mut self, handle: u32) -> bool
        ensures live { result ≡ spec.is_live self.old handle }
        ensures slots { self.new ≡ spec.with_state self.old handle None }
        ensures refused { result ≡ false → self.new ≡ self.old }
    {
        self.take_out(handle).is_some()
    }

    /// Closes the use of a live session: hands its facts out, and leaves it with the empty ones and the new
    /// nonceTPM where it is kept, or ends it.
    pub fn close_use(&mut self, handle: u32, keep: bool, nonce: Digest32, facts: Facts) -> Facts
        requires live { spec.is_live self.old handle ≡ true }
        requires empty { facts ≡ [] }
        ensures facts { option_map (λ state. state.facts) (spec.state_at self.old handle)
            ≡ Some result }
        ensures kept { keep ≡ true
            → self.new ≡ spec.changed_at self.old handle (λ state. kept.with_nonce state nonce) }
        ensures ended { keep ≡ false → self.new ≡ spec.with_state self.old handle None }
    {
        let Some(session) = self.take_out(handle) else {
            unreachable!();
        };
        if !keep {
            return session.into_facts();
        }
        let (session, used) = session.renewed(nonce, facts);
        self.put_back(session);
        used
    }

    /// Ends all sessions.
    pub fn clear(&mut self)
        ensures { self.new ≡ replicate spec.slot_count None }
    {
        self.table.clear();
    }

    // Whether a slot is neither live nor taken.
    fn is_free(&self, slot: u32, taken: u64) -> bool
        requires { slot < spec.slot_count }
        ensures { result ≡ spec.is_free self.now taken slot }
    {
        self.find(FIRST_HANDLE + slot).is_none() && (taken >> slot) & 1 == 0
    }

    // The least such slot.
    fn first_free(&self, taken: u64) -> Option<u32>
        ensures least { result ≡ spec.first_free self.now taken }
        ensures within { IfSome result (λ slot. slot < spec.slot_count) }
    {
        for lowest in 0..SLOT_COUNT {
            if self.is_free(lowest, taken) {
                return Some(lowest);
            }
        }
        None
    }
}
