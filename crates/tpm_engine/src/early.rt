//! The rules that stand before a command's authorization, and the one behind it on the room of its session.

ghost use Rattle.std.specs.Prelude.{◌≡◌, ◌≤◌};
ghost use Rattle.tpol_base.specs.ResponseCode.{reference_of_handle};
ghost use Rattle.tpm_rules.specs.Rule.{Obeys, unless};
ghost use Rattle.tpm_session.specs.Slots.{is_live};
ghost use Rattle.tpm_engine.specs.Stops as spec;

use crate::{Stop, Tables};
use tpm_rules::{Denial, Outcome};
use tpol_base::handle::TPM_RS_PW;
use tpol_base::response_code::{
    REFERENCE_S0, SESSION_MEMORY, VALUE, of_handle, reference_of_handle,
};
use tpol_base::{HandleKind, Rc};
use tpol_wire::Command;

// A refusal with this code.
pub fn refuses(code: u32) -> Stop
    ensures { result ≡ spec.refuses code }
{
    Stop {
        outcome: Outcome::Refused(Rc { code }),
        code,
    }
}

// A denial, with its code.
pub fn denies(denial: Denial, code: u32) -> Stop
    ensures { result ≡ spec.denies denial code }
{
    Stop {
        outcome: Outcome::Denied(denial),
        code,
    }
}

// The policy session that is to authorize a command; `None` where it needs none, or a password stands for it.
pub fn authorizing_session(command: &Command) -> Option<u32>
    ensures { result ≡ spec.authorizing_session command.now }
{
    match command.area() {
        Some(area) if area.session != TPM_RS_PW => Some(area.session),
        _ => None,
    }
}

impl Tables {
    // That all handles of a command are there, the first that is not.
    pub(crate) fn handles_stop(&self, command: &Command) -> Option<Stop>
        ensures { result ≡ spec.handles_stop self.now command.now }
    {
        let handles = command.handles();
        let mut n = 1;
        for handle in handles.as_slice() {
            if let Some(stop) = self.handle_stop(n, *handle) {
                return Some(stop);
            }
            n += 1;
        }
        None
    }

    // That handle `n` of a command, from 1, is there.
    fn handle_stop(&self, n: u8, handle: u32) -> Option<Stop>
        requires position { 1 ≤ n }
        ensures { result ≡ spec.handle_stop self.now n handle }
    {
        let rule = if HandleKind::of(handle) == Some(HandleKind::PolicySession) {
            self.live_handle_rule(n, handle)
        } else {
            self.world.handle_rule(n, handle)
        };
        match rule {
            Ok(()) => None,
            Err(rc) => Some(refuses(rc.code)),
        }
    }

    // That handle `n`, a policy session, is live.
    fn live_handle_rule(&self, n: u8, handle: u32) -> Result<(), Rc>
        requires position { 1 ≤ n }
        ensures { Obeys result (unless (is_live self.now.sessions handle) (reference_of_handle n)) }
    {
        if self.sessions.find(handle).is_some() {
            Ok(())
        } else {
            Err(Rc {
                code: reference_of_handle(n),
            })
        }
    }

    // That the authorizing session, where there is one, is live and not the command's policy session.
    pub(crate) fn session_stop(&self, command: &Command) -> Option<Stop>
        ensures { result ≡ spec.session_stop self.now command.now }
    {
        let session = authorizing_session(command)?;
        if self.sessions.find(session).is_none() {
            return Some(refuses(REFERENCE_S0));
        }
        match command.policy_session() {
            Some((own, n)) if own == session => Some(refuses(VALUE + of_handle(n))),
            _ => None,
        }
    }

    // That the policy session of a policy command has room for one more fact.
    pub(crate) fn room_stop(&self, command: &Command) -> Option<Stop>
        ensures { result ≡ spec.room_stop self.now command.now }
    {
        let (own, _) = command.policy_session()?;
        let session = self.sessions.find(own)?;
        if session.room() == 0 {
            Some(refuses(SESSION_MEMORY))
        } else {
            None
        }
    }
}
