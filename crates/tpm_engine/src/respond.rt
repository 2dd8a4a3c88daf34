//! The response to a command buffer, over the tables of a machine: all that takes memory is prepared first, and
//! then the tables change.

ghost use Rattle.std.specs.Prelude.{◌≡◌, ℕ, List, None, Ok, Some, IfOk, IfSome};
ghost use Rattle.tpol_digest.specs.Sound.{IsSound};
ghost use Rattle.tpol_wire.specs.Commands.{FitsCommand};
ghost use Rattle.tpol_fields.specs.Answers.{Gives};
ghost use Rattle.tpol_wire.specs.Reading.{reading};
ghost use Rattle.tpol_wire.specs.Replies.{spell_reply};
ghost use Rattle.tpm_bindings.specs.Agreement.{Agree};
ghost use Rattle.tpm_bindings.specs.Facts.{moves_of};
ghost use Rattle.tpm_engine.specs.Answers as spec;
ghost use Rattle.tpm_engine.specs.Authorization.{reply_auth};
ghost use Rattle.tpm_engine.specs.Closings.{closing_of as spec_closing_of};
ghost use Rattle.tpm_engine.specs.Responses.{IsAnswer, IsPrepared, IsReady, IsReadyBy, after_ready, first_facts, opened_by_ready};
ghost use Rattle.tpm_engine.specs.Stops.{room_stop, session_stop};

use crate::closing::closing_of;
use crate::early::refuses;
use crate::{Closing, Opened, Prepared, Stop, Success, Tables};
use std::alloc::Global;
use tpm_rules::Outcome;
use tpm_session::fresh_facts;
use tpol_base::{Blob, NoMemory, Rc};
use tpol_tree::Facts;
use tpol_wire::{Command, Reply, WireFault, write_reply};

impl Tables {
    /// Prepares the response to what was read of the bytes that a client sends at a locality, as the event of this
    /// number; nothing changes yet. The reply has the code of the first rule that is broken, in this order, or that of
    /// success:
    ///
    /// 1. the bytes spell a command;
    /// 2. its handles are there;
    /// 3. its authorizing session is live, and is not its policy session;
    /// 4. it is authorized, by a password or by a policy session;
    /// 5. its policy session has room for one more fact;
    /// 6. its own rules.
    ///
    /// `finish` then makes of the tables what the event makes of them.
    pub fn prepare(
        &self,
        alloc: Global,
        number: u32,
        locality: u8,
        read: &Result<Command, WireFault>,
    ) -> Result<Prepared, NoMemory>
        requires fits { IfOk read.now FitsCommand }
        ensures answer { (buffer : List ℕ) → Gives read.now (reading buffer)
            → IfOk result (IsAnswer self.now number locality buffer read.now) }
    {
        match read {
            Ok(command) => self.prepare_for(alloc, number, locality, command),
            Err(WireFault::Refused(rc)) => stopped(alloc, refuses(rc.code)),
            Err(WireFault::NoMemory) => Err(NoMemory),
        }
    }

    // The response to a command that was read.
    fn prepare_for(
        &self,
        alloc: Global,
        number: u32,
        locality: u8,
        command: &Command,
    ) -> Result<Prepared, NoMemory>
        requires fits { FitsCommand command.now }
        ensures response { IfOk result (λ done. IsPrepared self.now number command.now
            (spec.answer_to_command self.now number locality command.now)
            (spec.opened_by_command self.now locality command.now) done) }
    {
        match self.first_stop(alloc, locality, command)? {
            None => self.prepare_success(alloc, number, command),
            Some(stop) => stopped(alloc, stop),
        }
    }

    // The response to a command whose rules hold.
    fn prepare_success(
        &self,
        alloc: Global,
        number: u32,
        command: &Command,
    ) -> Result<Prepared, NoMemory>
        requires fits { FitsCommand command.now }
        requires session { session_stop self.now command.now ≡ None }
        requires room { room_stop self.now command.now ≡ None }
        requires rule { spec.own_rule self.now command.now ≡ None }
        ensures response { IfOk result (λ done. IsPrepared self.now number command.now
            (spec.succeeding self.now number command.now)
            (spec.opening_of self.now command.now) done) }
    {
        let (reply, closing, facts) = self.parts_of(alloc, number, command)?;
        Ok(Prepared {
            reply,
            outcome: success_of(command),
            success: Some(Success { closing, facts }),
        })
    }

    // All that takes memory in the response to a command that succeeds: the bytes of the reply, the use of a policy
    // session to be closed, and the facts of the session that the command starts.
    fn parts_of(
        &self,
        alloc: Global,
        number: u32,
        command: &Command,
    ) -> Result<(Blob, Option<Closing>, Option<Facts>), NoMemory>
        requires rule { spec.own_rule self.now command.now ≡ None }
        ensures reply { IfOk result (λ parts. parts.0
            ≡ (spec.succeeding self.now number command.now).reply) }
        ensures closing { IfOk result (λ parts. parts.1 ≡ spec_closing_of command.now) }
        ensures facts { IfOk result (λ parts. parts.2 ≡ first_facts command.now) }
    {
        let reply = self.reply_bytes(alloc, number, command)?;
        let closing = closing_of(alloc, command)?;
        Ok((reply, closing, first_facts(alloc, command)?))
    }

    /// Carries out the command that was read and prepared, if it succeeds, and closes the use of the policy session
    /// that authorized it. Answers what that session opened; `None` where none authorized the command, or it does not
    /// succeed. It takes no memory.
    pub fn finish(
        &mut self,
        alloc: Global,
        number: u32,
        read: Result<Command, WireFault>,
        success: Option<Success>,
    ) -> Option<Opened>
        requires ready { IsReadyBy self.old read success }
        ensures tables { self.new ≡ after_ready self.old number read success }
        ensures opened { result ≡ opened_by_ready self.old read success }
        ensures sound { IfSome result (λ opened. IsSound (moves_of opened.facts)) }
        ensures agree { IfSome result (λ opened. Agree (moves_of opened.facts)) }
    {
        match (read, success) {
            (Ok(command), Some(success)) => self.succeed(alloc, number, command, success),
            (read, success) => {
                drop(success);
                drop(read);
                None
            }
        }
    }

    // Carries a command out.
    fn succeed(
        &mut self,
        alloc: Global,
        number: u32,
        command: Command,
        success: Success,
    ) -> Option<Opened>
        requires ready { IsReady self.old command success }
        ensures tables { self.new ≡ after_ready self.old number (Ok command) (Some success) }
        ensures opened { result ≡ spec.opening_of self.old command }
        ensures sound { IfSome result (λ opened. IsSound (moves_of opened.facts)) }
        ensures agree { IfSome result (λ opened. Agree (moves_of opened.facts)) }
    {
        let Success { closing, facts } = success;
        self.carry_out(alloc, number, command, facts);
        self.close(number, closing)
    }

    // The first rule of all that a command breaks.
    fn first_stop(
        &self,
        alloc: Global,
        locality: u8,
        command: &Command,
    ) -> Result<Option<Stop>, NoMemory>
        ensures { IfOk result (λ stop. stop ≡ spec.first_stop self.now locality command.now) }
    {
        if let Some(stop) = self.early_stop(alloc, locality, command)? {
            return Ok(Some(stop));
        }
        match self.own_rule(command) {
            Ok(()) => Ok(None),
            Err(rc) => Ok(Some(refuses(rc.code))),
        }
    }

    // The first broken rule of those that stand before a command's own.
    fn early_stop(
        &self,
        alloc: Global,
        locality: u8,
        command: &Command,
    ) -> Result<Option<Stop>, NoMemory>
        ensures { IfOk result (λ stop. stop ≡ spec.early_stop self.now locality command.now) }
    {
        if let Some(stop) = self.handles_stop(command) {
            return Ok(Some(stop));
        }
        if let Some(stop) = self.session_stop(command) {
            return Ok(Some(stop));
        }
        if let Some(stop) = self.authorization_stop(alloc, locality, command)? {
            return Ok(Some(stop));
        }
        Ok(self.room_stop(command))
    }

    // The bytes of the reply to a command that succeeds.
    fn reply_bytes(&self, alloc: Global, number: u32, command: &Command) -> Result<Blob, NoMemory>
        requires rule { spec.own_rule self.now command.now ≡ None }
        ensures { IfOk result (λ bytes. bytes
            ≡ (spec.succeeding self.now number command.now).reply) }
    {
        let reply = self.reply_to(alloc, number, command)?;
        let bytes = self.spelled(alloc, number, command, &reply);
        drop(reply);
        bytes
    }

    // The bytes of a reply to a command, with its authorization area where the command has one.
    fn spelled(
        &self,
        alloc: Global,
        number: u32,
        command: &Command,
        reply: &Reply,
    ) -> Result<Blob, NoMemory>
        ensures { IfOk result (λ bytes. bytes
            ≡ spell_reply reply.now (reply_auth self.now number command.now reply.now)) }
    {
        let auth = self.reply_auth(alloc, number, command, reply)?;
        write_reply(alloc, reply, auth.as_ref())
    }
}

// The empty facts of the session that a command starts, if it starts one: room for all that it may ever have.
fn first_facts(alloc: Global, command: &Command) -> Result<Option<Facts>, NoMemory>
    ensures { IfOk result (λ facts. facts ≡ first_facts command.now) }
{
    match command {
        Command::StartAuthSession { .. } => Ok(Some(fresh_facts(alloc)?)),
        _ => Ok(None),
    }
}

// What becomes of a command that succeeds: it is served where it was authorized.
fn success_of(command: &Command) -> Outcome
    ensures { result ≡ spec.success_of command.now }
{
    if command.area().is_some() {
        Outcome::Served
    } else {
        Outcome::Accepted
    }
}

// The response to a command that is stopped.
fn stopped(alloc: Global, stop: Stop) -> Result<Prepared, NoMemory>
    ensures reply { IfOk result (λ done. done.reply ≡ (spec.stopped stop).reply) }
    ensures outcome { IfOk result (λ done. done.outcome ≡ stop.outcome) }
    ensures nothing { IfOk result (λ done. done.success ≡ None) }
{
    let refused = Reply::Refused(Rc { code: stop.code });
    let written = write_reply(alloc, &refused, None);
    drop(refused);
    Ok(Prepared {
        reply: written?,
        outcome: stop.outcome,
        success: None,
    })
}
