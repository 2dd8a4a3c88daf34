//! The end of the use of a policy session that authorized a command.

ghost use Rattle.std.specs.Prelude.{◌≡◌, [], IfOk, IfSome, option_map, true};
ghost use Rattle.tpol_digest.specs.Sound.{IsSound};
ghost use Rattle.tpm_bindings.specs.Agreement.{Agree};
ghost use Rattle.tpm_bindings.specs.Facts.{moves_of};
ghost use Rattle.tpm_session.specs.Slots.{is_live};
ghost use Rattle.tpm_engine.specs.Closings as spec;
ghost use Rattle.tpm_engine.specs.Deeds.{after_use};
ghost use Rattle.tpm_world.specs.Hashes.{nonce_of_event};

use crate::authorization::authorized_handle;
use crate::{Closing, Opened, Tables};
use std::alloc::Global;
use tpm_session::fresh_facts;
use tpol_base::handle::TPM_RS_PW;
use tpol_base::{Digest32, NoMemory};
use tpol_wire::Command;

// The use of a policy session that a command makes, where one is to authorize it.
pub fn closing_of(alloc: Global, command: &Command) -> Result<Option<Closing>, NoMemory>
    ensures { IfOk result (λ closing. closing ≡ spec.closing_of command.now) }
{
    match command.area() {
        Some(area) if area.session != TPM_RS_PW => Ok(Some(Closing {
            session: area.session,
            keep: area.attributes & 1 == 1,
            entity: authorized_handle(command),
            facts: fresh_facts(alloc)?,
        })),
        _ => Ok(None),
    }
}

impl Tables {
    // Closes the use of a policy session by the event of this number: the session goes on without facts and
    // with a new nonceTPM, or ends. What it opened is the entity, with its facts.
    pub(crate) fn close(&mut self, number: u32, closing: Option<Closing>) -> Option<Opened>
        requires live { IfSome closing (λ it. is_live self.old.sessions it.session ≡ true) }
        requires empty { IfSome closing (λ it. it.facts ≡ []) }
        ensures opened { result ≡ spec.opened_by self.old closing }
        ensures tables { self.new
            ≡ after_use number (option_map spec.use_of_closing closing) self.old }
        ensures sound { IfSome result (λ opened. IsSound (moves_of opened.facts)) }
        ensures agree { IfSome result (λ opened. Agree (moves_of opened.facts)) }
    {
        match closing {
            Some(closing) => Some(self.close_session(number, closing)),
            None => None,
        }
    }

    fn close_session(&mut self, number: u32, closing: Closing) -> Opened
        requires live { is_live self.old.sessions closing.session ≡ true }
        requires empty { closing.facts ≡ [] }
        ensures opened { Some result ≡ spec.opened_by_one self.old closing }
        ensures tables { self.new ≡ after_use number (Some (spec.use_of_closing closing)) self.old }
        ensures sound { IsSound (moves_of result.facts) }
        ensures agree { Agree (moves_of result.facts) }
    {
        let Closing {
            session,
            keep,
            entity,
            facts,
        } = closing;
        let Some(used) = self.sessions.find(session) else {
            unreachable!();
        };
        // Its contract says that its facts are sound and agree.
        used.facts();
        let nonce = self.kept_nonce(number, keep);
        let facts = self.sessions.close_use(session, keep, nonce, facts);
        Opened { entity, facts }
    }

    // The nonceTPM of a session that is kept. One that ends needs none, and zeros stand for it.
    fn kept_nonce(&self, number: u32, keep: bool) -> Digest32
        ensures kept { keep ≡ true → result ≡ nonce_of_event self.now.world.seed number }
    {
        if !keep {
            return Digest32::ZERO;
        }
        self.world.nonce(number)
    }
}
