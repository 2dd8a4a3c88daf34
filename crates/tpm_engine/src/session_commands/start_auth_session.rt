//! StartAuthSession (TPM 2.0 Part 3, TPM2_StartAuthSession).

ghost use Rattle.std.specs.Prelude.{◌≡◌, ◌<◌, [], None, IfSome};
ghost use Rattle.tpol_wire.specs.Replies.{spell_reply};
ghost use Rattle.tpm_rules.specs.Rule.{Obeys};
ghost use Rattle.tpm_session.specs.Slots as slots;
ghost use Rattle.tpm_engine.specs.Deeds.{after_deed, started_by};
ghost use Rattle.tpm_engine.specs.SessionCommands as spec;

use crate::Tables;
use tpm_rules::unless;
use tpm_session::{FIRST_HANDLE, SLOT_COUNT};
use tpol_base::Rc;
use tpol_base::response_code::SESSION_MEMORY;
use tpol_tree::Facts;
use tpol_wire::Reply;

// That a slot has neither a live nor a saved session (TPM_RC_SESSION_MEMORY).
pub fn rule(tables: &Tables) -> Result<(), Rc>
    ensures rule { Obeys result (spec.start_rule tables.now) }
{
    unless(tables.free_slot().is_some(), SESSION_MEMORY)
}

// The session's handle, and its nonceTPM.
pub fn reply(tables: &Tables, number: u32) -> Reply
    ensures reply { result ≡ spec.started_reply tables.now number }
{
    let session = match tables.free_slot() {
        Some(slot) => FIRST_HANDLE + slot,
        None => 0,
    };
    Reply::StartAuthSession {
        session,
        nonce: tables.world.nonce(number),
    }
}

// A session starts in the least such slot.
pub fn carry_out(tables: &mut Tables, number: u32, facts: Facts)
    requires rule { spec.start_rule tables.old ≡ None }
    requires empty { facts ≡ [] }
    ensures tables { tables.new ≡ after_deed number
        (started_by (spell_reply (spec.started_reply tables.old number) None)) tables.old }
{
    let nonce = tables.world.nonce(number);
    let taken = tables.saved.slots();
    let time = tables.world.time();
    match tables.sessions.start(time, nonce, facts, taken) {
        Ok(_) => {}
        Err(_) => unreachable!(),
    }
}

impl Tables {
    // The least slot that has neither a live nor a saved session.
    fn free_slot(&self) -> Option<u32>
        ensures slot { result ≡ spec.free_slot self.now }
        ensures within { IfSome result (λ slot. slot < slots.slot_count) }
    {
        for lowest in 0..SLOT_COUNT {
            if self.is_free(lowest) {
                return Some(lowest);
            }
        }
        None
    }

    // Whether a slot has neither a live nor a saved session.
    #[tactic(auto, using(crate::proofs::Slotted::unsaved_bit))]
    fn is_free(&self, slot: u32) -> bool
        requires { slot < slots.slot_count }
        ensures { result ≡ slots.is_free self.now.sessions (slots.bits_of self.now.saved) slot }
    {
        let handle = FIRST_HANDLE + slot;
        self.sessions.find(handle).is_none() && !self.saved.is_saved(handle)
    }
}
