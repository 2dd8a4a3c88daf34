//! How a command is authorized, and the authorization area of the reply.

ghost use Rattle.std.specs.Prelude.{◌≡◌, IfOk};
ghost use Rattle.tpm_auth.specs.SessionMacs as macs;
ghost use Rattle.tpm_bindings.specs.Facts.{every_name_hash};
ghost use Rattle.tpm_rules.specs.EntityView.{entity_of};
ghost use Rattle.tpol_wire.specs.Hashes.{rp_hash};
ghost use Rattle.tpm_world.specs.Hashes as hashes;
ghost use Rattle.tpm_engine.specs.Authorization as spec;

use crate::early::{denies, refuses};
use crate::{Stop, Tables};
use std::alloc::Global;
use tpm_auth::reply_mac;
use tpm_bindings::LastAuth;
use tpm_deferred::{Attempt, check_use, code_of_check};
use tpm_rules::{Denial, Entity, password_denial, unavailable_password_code, wrong_password_code};
use tpm_session::Session;
use tpol_base::handle::TPM_RS_PW;
use tpol_base::response_code::{AUTH_UNAVAILABLE, REFERENCE_S0, reference_of_handle};
use tpol_base::{Blob, Check, CommandCode, Digest32, NoMemory};
use tpol_wire::{AuthArea, Command, Reply, ReplyAuth, code_of, rp_hash};

// The handle that is authorized: the first, and 0 where there is none.
pub fn authorized_handle(command: &Command) -> u32
    ensures { result ≡ spec.authorized_handle command.now }
{
    match command.handles().as_slice().first() {
        Some(handle) => *handle,
        None => 0,
    }
}

impl Tables {
    // That a command is authorized, where it has to be.
    pub(crate) fn authorization_stop(
        &self,
        alloc: Global,
        locality: u8,
        command: &Command,
    ) -> Result<Option<Stop>, NoMemory>
        ensures { IfOk result (λ stop. stop
            ≡ spec.authorization_stop self.now locality command.now) }
    {
        match command.area() {
            Some(area) => self.area_stop(alloc, locality, command, area),
            None => Ok(None),
        }
    }

    // That the area authorizes it on the entity of its first handle.
    fn area_stop(
        &self,
        alloc: Global,
        locality: u8,
        command: &Command,
        area: &AuthArea,
    ) -> Result<Option<Stop>, NoMemory>
        ensures { IfOk result (λ stop. stop
            ≡ spec.area_stop self.now locality command.now area.now) }
    {
        match self.world.entity(authorized_handle(command)) {
            Some(entity) => self.entity_stop(alloc, locality, command, area, &entity),
            None => Ok(Some(refuses(reference_of_handle(1)))),
        }
    }

    // That it authorizes it on this entity: by a password, or by a policy session.
    fn entity_stop(
        &self,
        alloc: Global,
        locality: u8,
        command: &Command,
        area: &AuthArea,
        entity: &Entity<'_>,
    ) -> Result<Option<Stop>, NoMemory>
        ensures { IfOk result (λ stop. stop
            ≡ spec.entity_stop self.now locality command.now area.now (entity_of entity.now)) }
    {
        if area.session == TPM_RS_PW {
            return Ok(password_stop(entity, code_of(command), area.hmac.as_slice()));
        }
        match self.sessions.find(area.session) {
            Some(session) => self.policy_stop(alloc, locality, command, area, entity, session),
            None => Ok(Some(refuses(REFERENCE_S0))),
        }
    }

    // That a policy session is available for it, and that its deferred checks hold.
    fn policy_stop(
        &self,
        alloc: Global,
        locality: u8,
        command: &Command,
        area: &AuthArea,
        entity: &Entity<'_>,
        session: &Session,
    ) -> Result<Option<Stop>, NoMemory>
        ensures { IfOk result (λ stop. stop
            ≡ spec.policy_stop self.now locality command.now area.now
            (entity_of entity.now) session.now.state) }
    {
        if !entity.is_policy_available(code_of(command)) {
            return Ok(Some(denies(Denial::Unavailable, AUTH_UNAVAILABLE)));
        }
        let cp_hash = self.asked_cp_hash(alloc, command, area, session)?;
        match self.broken_check(locality, command, area, entity, session, cp_hash) {
            Some(check) => Ok(Some(check_stop(check))),
            None => Ok(None),
        }
    }

    // The command's cpHash where the session sets one, or where the field hmac may be an HMAC over it. Where neither
    // is so, no check reads it, and zeros, which need no hashing, stand for it.
    fn asked_cp_hash(
        &self,
        alloc: Global,
        command: &Command,
        area: &AuthArea,
        session: &Session,
    ) -> Result<Digest32, NoMemory>
        ensures passes { IfOk result
            (spec.PassesForCpHash self.now command.now area.now session.now.state) }
    {
        if area.hmac.is_empty() && !session.bindings().sets_cp_hash() {
            return Ok(Digest32::ZERO);
        }
        self.world.cp_hash(alloc, command)
    }

    // The first deferred check that the use of the session breaks.
    fn broken_check(
        &self,
        locality: u8,
        command: &Command,
        area: &AuthArea,
        entity: &Entity<'_>,
        session: &Session,
        cp_hash: Digest32,
    ) -> Option<Check>
        requires hash { spec.PassesForCpHash self.now command.now area.now
            session.now.state cp_hash }
        ensures { result ≡ spec.broken_check self.now locality command.now area.now
            (entity_of entity.now) session.now.state }
    {
        let code = code_of(command);
        let attempt = Attempt {
            code,
            duplicate_role: code == CommandCode::Duplicate.number(),
            locality,
            presence: self.world.presence(),
            time: self.world.time(),
            pcr_counter: self.world.pcrs().counter(),
            cp_hash,
            name_hash: self.asked_name_hash(command, session),
            nv_written: entity.written_state(),
            auth_policy: entity.auth_policy(),
            auth_value: entity.auth_value(),
            nonce_caller: area.nonce.as_slice(),
            attributes: area.attributes,
            hmac: area.hmac.as_slice(),
        };
        check_use(session, &attempt).err()
    }

    // The command's nameHash where the session sets one. Where it does not, no check reads it, and zeros, which
    // need no hashing, stand for it.
    fn asked_name_hash(&self, command: &Command, session: &Session) -> Digest32
        ensures alike { every_name_hash session.now.state.facts result
            ≡ every_name_hash session.now.state.facts
            (hashes.name_hash self.now.world command.now) }
    {
        if !session.bindings().sets_name_hash() {
            return Digest32::ZERO;
        }
        self.world.name_hash(command)
    }

    // The authorization area of a reply that succeeds, where the command has one.
    pub(crate) fn reply_auth(
        &self,
        alloc: Global,
        number: u32,
        command: &Command,
        reply: &Reply,
    ) -> Result<Option<ReplyAuth>, NoMemory>
        ensures { IfOk result (λ auth. auth
            ≡ spec.reply_auth self.now number command.now reply.now) }
    {
        match command.area() {
            Some(area) => self.reply_area(alloc, number, command, reply, area),
            None => Ok(None),
        }
    }

    // The same in answer to this area.
    fn reply_area(
        &self,
        alloc: Global,
        number: u32,
        command: &Command,
        reply: &Reply,
        area: &AuthArea,
    ) -> Result<Option<ReplyAuth>, NoMemory>
        ensures { IfOk result (λ auth. auth
            ≡ spec.reply_area self.now number command.now reply.now area.now) }
    {
        if area.session == TPM_RS_PW {
            return Ok(Some(password_area(alloc)));
        }
        let Some(entity) = self.world.entity(authorized_handle(command)) else {
            return Ok(None);
        };
        let Some(session) = self.sessions.find(area.session) else {
            return Ok(None);
        };
        let exchange = Exchange {
            number,
            command,
            area,
            reply,
        };
        self.session_area(alloc, &exchange, &entity, session)
    }

    // The same in answer to a policy session: the new nonceTPM, and the command's attributes.
    fn session_area(
        &self,
        alloc: Global,
        exchange: &Exchange<'_>,
        entity: &Entity<'_>,
        session: &Session,
    ) -> Result<Option<ReplyAuth>, NoMemory>
        ensures { IfOk result (λ auth. auth
            ≡ Some (spec.session_area self.now exchange.now.number exchange.now.command.now
            exchange.now.reply.now exchange.now.area.now
            (entity_of entity.now) session.now.state)) }
    {
        let Exchange {
            number,
            command,
            area,
            reply,
        } = *exchange;
        let nonce = self.world.nonce(number);
        let last = session.bindings().last_auth();
        let value = entity.auth_value();
        let hmac = reply_hmac(alloc, last, value, area, code_of(command), reply, &nonce)?;
        Ok(Some(ReplyAuth {
            nonce: Blob::from_slice(alloc, &nonce.bytes)?,
            attributes: area.attributes,
            hmac,
        }))
    }
}

// A command of an event, its authorization area, and its reply.
#[derive(Clone, Copy)]
struct Exchange<'a> {
    number: u32,
    command: &'a Command,
    area: &'a AuthArea,
    reply: &'a Reply,
}

// That a password authorizes a command of this code on the entity.
fn password_stop(entity: &Entity<'_>, code: u32, given: &[u8]) -> Option<Stop>
    ensures { result ≡ spec.password_stop (entity_of entity.now) code given.now }
{
    match password_denial(entity, code, given) {
        Some(denial) => Some(denies(denial, password_code(entity, code, denial))),
        None => None,
    }
}

// The code of a password's denial.
fn password_code(entity: &Entity<'_>, code: u32, denial: Denial) -> u32
    ensures { result ≡ spec.password_code (entity_of entity.now) code denial }
{
    match denial {
        Denial::Unavailable => unavailable_password_code(code),
        Denial::Password => wrong_password_code(entity),
        Denial::Deferred(check) => code_of_check(check),
    }
}

// The denial by a deferred check.
fn check_stop(check: Check) -> Stop
    ensures { result ≡ spec.check_stop check }
{
    denies(Denial::Deferred(check), code_of_check(check))
}

// The reply's area in answer to a password: empty, but for continueSession.
fn password_area(alloc: Global) -> ReplyAuth
    ensures { result ≡ spec.password_area }
{
    ReplyAuth {
        nonce: Blob::new(alloc),
        attributes: 1,
        hmac: Blob::new(alloc),
    }
}

// The field hmac of a reply to the command of this code. It is empty after PolicyPassword, and where the key
// and the command's field were both empty; else it is the HMAC with the authorization value as key after
// PolicyAuthValue, with an empty key after neither.
fn reply_hmac(
    alloc: Global,
    last: LastAuth,
    value: &[u8],
    area: &AuthArea,
    code: u32,
    reply: &Reply,
    nonce: &Digest32,
) -> Result<Blob, NoMemory>
    ensures { IfOk result (λ hmac. hmac ≡ spec.reply_hmac last value.now area.now.hmac
        (λ key. macs.reply_mac key
        (rp_hash code reply.now) nonce.now area.now.nonce area.now.attributes)) }
{
    let key = match last {
        LastAuth::Password => return Ok(Blob::new(alloc)),
        LastAuth::AuthValue => value,
        LastAuth::Neither => &[],
    };
    if key.is_empty() && area.hmac.is_empty() {
        return Ok(Blob::new(alloc));
    }
    let rp_hash = rp_hash(alloc, code, reply)?;
    let mac = reply_mac(key, &rp_hash, nonce, area.nonce.as_slice(), area.attributes);
    Ok(Blob::from_slice(alloc, &mac.bytes)?)
}
