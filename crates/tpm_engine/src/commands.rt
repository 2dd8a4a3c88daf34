//! The own rules of commands, their replies, and how they are carried out: policy commands, commands on sessions,
//! and those on entities and PCRs.

ghost use Rattle.std.specs.Prelude.{◌≡◌, ◌≤◌, ◌^◌, ℕ, List, true, false, None, IfOk};
ghost use Rattle.tpol_wire.specs.Commands.{FitsCommand};
ghost use Rattle.tpol_wire.specs.Handles.{is_policy_command};
ghost use Rattle.tpm_rules.specs.Rule.{Obeys};
ghost use Rattle.tpm_engine.specs.Answers.{own_rule, reply_to, succeeding};
ghost use Rattle.tpm_engine.specs.Deeds.{after_deed, command_deed};
ghost use Rattle.tpm_engine.specs.PolicyCommands.{policy_command_rule, policy_start};
ghost use Rattle.tpm_engine.specs.Responses.{first_facts};
ghost use Rattle.tpm_engine.specs.Stops.{room_stop};

use crate::session_commands::is_session_command;
use crate::{Tables, policy_commands, session_commands};
use std::alloc::Global;
use tpol_base::response_code::REFERENCE_H0;
use tpol_base::{NoMemory, Rc};
use tpol_tree::Facts;
use tpol_wire::{Command, Reply};

impl Tables {
    // The first of a command's own rules that it breaks.
    pub(crate) fn own_rule(&self, command: &Command) -> Result<(), Rc>
        ensures rule { Obeys result (own_rule self.now command.now) }
    {
        if let Some((handle, _)) = command.policy_session() {
            return match self.sessions.find(handle) {
                Some(session) => policy_commands::rule(&self.world, session, command),
                None => Err(Rc { code: REFERENCE_H0 }),
            };
        }
        if is_session_command(command) {
            return session_commands::rule(self, command);
        }
        self.world.plain_rule(command)
    }

    // The fields of the reply to a command whose rules hold.
    pub(crate) fn reply_to(
        &self,
        alloc: Global,
        number: u32,
        command: &Command,
    ) -> Result<Reply, NoMemory>
        requires rule { own_rule self.now command.now ≡ None }
        ensures reply { IfOk result (λ reply. reply ≡ reply_to self.now number command.now) }
    {
        if command.policy_session().is_some() {
            let start = self.policy_start(command);
            return policy_commands::reply(alloc, &self.world, start, command);
        }
        if is_session_command(command) {
            return Ok(session_commands::reply(self, number, command));
        }
        self.world.plain_reply(alloc, command)
    }

    // The time at the start of the session of a policy command.
    fn policy_start(&self, command: &Command) -> u64
        ensures start { result ≡ policy_start self.now command.now }
        ensures early { result ≤ 2 ^ 63 }
    {
        match command.policy_session() {
            Some((handle, _)) => match self.sessions.find(handle) {
                Some(session) => session.start(),
                None => 0,
            },
            None => 0,
        }
    }

    // Carries out a command whose rules hold. It takes no memory; `facts` are the empty ones of the session that the
    // command starts, if it starts one.
    pub(crate) fn carry_out(
        &mut self,
        alloc: Global,
        number: u32,
        command: Command,
        facts: Option<Facts>,
    )
        requires fits { FitsCommand command }
        requires room { room_stop self.old command ≡ None }
        requires rule { own_rule self.old command ≡ None }
        requires empty { facts ≡ first_facts command }
        ensures tables { self.new ≡ after_deed number
            (command_deed command (succeeding self.old number command).reply) self.old }
    {
        if command.policy_session().is_some() {
            return self.show(alloc, number, command);
        }
        self.carry_out_other(number, &command, facts);
        drop(command);
    }

    // The session of a policy command gets one more fact.
    fn show(&mut self, alloc: Global, number: u32, command: Command)
        requires policy { is_policy_command command ≡ true }
        requires fits { FitsCommand command }
        requires room { room_stop self.old command ≡ None }
        requires rule { policy_command_rule self.old command ≡ None }
        ensures tables { (reply : List ℕ)
            → self.new ≡ after_deed number (command_deed command reply) self.old }
    {
        let Some((handle, _)) = command.policy_session() else {
            unreachable!();
        };
        let world = &self.world;
        self.sessions.change(handle, |session| {
            policy_commands::carry_out(alloc, world, session, number, command)
        });
    }

    // The same for what is no policy command.
    fn carry_out_other(&mut self, number: u32, command: &Command, facts: Option<Facts>)
        requires other { is_policy_command command.now ≡ false }
        requires rule { own_rule self.old command.now ≡ None }
        requires empty { facts ≡ first_facts command.now }
        ensures tables { self.new ≡ after_deed number
            (command_deed command.now (succeeding self.old number command.now).reply) self.old }
    {
        if is_session_command(command) {
            return session_commands::carry_out(self, number, command, facts);
        }
        self.world.carry_out(command);
    }
}
