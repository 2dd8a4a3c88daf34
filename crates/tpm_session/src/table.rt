ghost use Rattle.std.specs.Prelude.{◌≡◌, ℕ, ◌+◌, IfOk, MatchOption, None, Some, is_some, replicate, true};
ghost use Rattle.std.specs.Borrow.{MutBor};
ghost use Rattle.std.specs.Fn.{FnOnceReturnsAtMut};
ghost use Rattle.std.specs.Int.{bit_at};
ghost use Rattle.std.specs.Option.{option_copied};
ghost use Rattle.tpm_session.specs.Slots as spec;

use std::alloc::Global;
use std::marker::Model;
use tpol_base::NoMemory;

/// The handle of the first slot (TPM 2.0 Part 2, TPM_HT_POLICY_SESSION).
pub const FIRST_HANDLE: u32 = 0x0300_0000;

/// The number of slots: of policy sessions that can be live at one time.
pub const SLOT_COUNT: u32 = 64;

/// A table of the 64 slots of policy sessions, found by handle: slot k is that of the handle 0x0300_0000 + k.
/// Contracts see the list of what each slot has, if anything. Only `new` takes memory.
#[derive(Drop)]
pub struct Table<T> {
    slots: Vec<Option<T>>,
}

impl<T> Model for Table<T> {
    ghost use Rattle.std.specs.Prelude.{List, Option};
    ghost use Rattle.tpm_session.specs.Table.{IsTable};

    ghost Value = { List (Option T) };

    ghost view = { λ t. t.slots.items };

    ghost invariant = { λ t. IsTable t.slots.items };
}

impl<T: Drop> Table<T> {
    /// A table with nothing in its slots.
    pub fn new(alloc: Global) -> Result<Table<T>, NoMemory>
        ensures { IfOk result (λ table. table ≡ replicate spec.slot_count None) }
    {
        let mut slots = Vec::with_capacity(alloc, SLOT_COUNT as usize)?;
        for _slot in 0..SLOT_COUNT {
            slots.push(None)?;
        }
        Ok(Table { slots })
    }

    /// What the slot of a handle has.
    pub fn get(&self, handle: u32) -> Option<&T>
        ensures { option_copied result ≡ spec.content_at self.now handle }
    {
        let slot = handle.checked_sub(FIRST_HANDLE)?;
        match self.slots.get(slot as usize) {
            Some(content) => content.as_ref(),
            None => None,
        }
    }

    /// Puts a content, or none, into the slot of a handle, and hands out what it had. For a handle of no slot
    /// nothing changes.
    pub fn replace(&mut self, handle: u32, content: Option<T>) -> Option<T>
        ensures before { result ≡ spec.content_at self.old handle }
        ensures slot { is_some result ≡ true → spec.IsSlotHandle handle }
        ensures after { self.new ≡ spec.with_content self.old handle content }
    {
        if handle < FIRST_HANDLE {
            return None;
        }
        let Some(slot) = self.slots.get_mut((handle - FIRST_HANDLE) as usize) else {
            return None;
        };
        std::mem::replace(slot, content)
    }

    /// Takes the content of a handle's slot out. For a handle of no slot nothing changes.
    pub fn take(&mut self, handle: u32) -> Option<T>
        ensures before { result ≡ spec.content_at self.old handle }
        ensures slot { is_some result ≡ true → spec.IsSlotHandle handle }
        ensures after { self.new ≡ spec.with_content self.old handle None }
    {
        if handle < FIRST_HANDLE {
            return None;
        }
        let Some(slot) = self.slots.get_mut((handle - FIRST_HANDLE) as usize) else {
            return None;
        };
        slot.take()
    }

    /// Puts a content into a handle's slot. For a handle of no slot nothing changes.
    pub fn put(&mut self, handle: u32, content: T)
        ensures after { self.new ≡ spec.with_content self.old handle (Some content) }
    {
        if handle < FIRST_HANDLE {
            return;
        }
        if let Some(slot) = self.slots.get_mut((handle - FIRST_HANDLE) as usize) {
            *slot = Some(content);
        }
    }

    /// Changes the content of a handle's slot where it lies. Where the slot has none nothing changes.
    pub fn change<F: FnOnce(&mut T)>(&mut self, handle: u32, change: F)
        requires takes { (content : MutBor T) → spec.content_at self.old handle ≡ Some content.now
            → F.pre change content }
        ensures slots { MatchOption (spec.content_at self.old handle) (self.new ≡ self.old)
            (λ before. (after : T) × FnOnceReturnsAtMut F.FnOnce change before tt after
            × (self.new ≡ spec.with_content self.old handle (Some after))) }
    {
        if handle < FIRST_HANDLE {
            return;
        }
        let Some(slot) = self.slots.get_mut((handle - FIRST_HANDLE) as usize) else {
            return;
        };
        let Some(content) = slot else {
            return;
        };
        change(content);
    }

    /// The slots that have something: bit k for slot k.
    pub fn occupied(&self) -> u64
        ensures value { result ≡ spec.bits_of self.now }
        ensures bits { (slot : ℕ) → bit_at result slot ≡ spec.bit_of (spec.in_slot self.now slot) }
    {
        let count = self.slots.len();
        let mut bits = 0;
        for above in 0..count {
            let slot = (count - 1 - above) as u32;
            bits = 2 * bits + u64::from(self.get(FIRST_HANDLE + slot).is_some());
        }
        bits
    }

    /// Empties all slots.
    pub fn clear(&mut self)
        ensures { self.new ≡ replicate spec.slot_count None }
    {
        for slot in 0..self.slots.len() {
            self.replace(FIRST_HANDLE + slot as u32, None);
        }
    }
}
