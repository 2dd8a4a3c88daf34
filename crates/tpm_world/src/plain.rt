//! The commands on entities and PCRs.

ghost use Rattle.std.specs.Prelude.{◌≡◌, None, IfOk};
ghost use Rattle.tpm_rules.specs.Rule.{Obeys};
ghost use Rattle.tpm_world.specs.Plain as spec;

use crate::World;
use crate::commands::{
    duplicate, hmac, nv_increment, nv_read, nv_write, pcr_extend, pcr_read, unseal,
    verify_signature,
};
use std::alloc::Global;
use tpol_base::response_code::COMMAND_CODE;
use tpol_base::{NoMemory, Rc};
use tpol_wire::{Command, Reply};

impl World {
    /// The rules of a command on entities or PCRs, behind its authorization; the code is that of the first that
    /// is broken. A command on policy sessions is refused with TPM_RC_COMMAND_CODE.
    pub fn plain_rule(&self, command: &Command) -> Result<(), Rc>
        ensures rule { Obeys result (spec.plain_rule self.now command.now) }
    {
        match command {
            Command::PcrExtend { pcr, .. } => pcr_extend::rule(self, *pcr),
            Command::PcrRead { .. } => Ok(()),
            Command::VerifySignature {
                key,
                digest,
                signature,
            } => verify_signature::rule(self, *key, digest, signature),
            Command::Unseal { object, .. } => unseal::rule(self, *object),
            Command::Hmac { key, .. } => hmac::rule(self, *key),
            Command::NvRead {
                authority,
                index,
                size,
                offset,
                ..
            } => nv_read::rule(self, *authority, *index, *size, *offset),
            Command::NvWrite {
                authority,
                index,
                bytes,
                offset,
                ..
            } => nv_write::rule(self, *authority, *index, bytes.as_slice(), *offset),
            Command::NvIncrement {
                authority,
                index,
                ..
            } => nv_increment::rule(self, *authority, *index),
            Command::Duplicate { object, .. } => duplicate::rule(self, *object),
            _ => Err(Rc { code: COMMAND_CODE }),
        }
    }

    /// The reply to such a command whose rules hold, before it is carried out.
    pub fn plain_reply(&self, alloc: Global, command: &Command) -> Result<Reply, NoMemory>
        requires rule { spec.plain_rule self.now command.now ≡ None }
        ensures reply { IfOk result (λ reply. reply ≡ spec.plain_reply self.now command.now) }
    {
        match command {
            Command::PcrExtend { .. } => Ok(Reply::PcrExtend),
            Command::PcrRead { mask } => pcr_read::reply(alloc, self, *mask),
            Command::VerifySignature { key, digest, .. } => {
                verify_signature::reply(alloc, self, *key, digest)
            }
            Command::Unseal { object, .. } => unseal::reply(self, *object),
            Command::Hmac { key, buffer, .. } => Ok(hmac::reply(self, *key, buffer.as_slice())),
            Command::NvRead {
                authority,
                index,
                size,
                offset,
                ..
            } => nv_read::reply(alloc, self, *authority, *index, *size, *offset),
            Command::NvWrite { .. } => Ok(Reply::NvWrite),
            Command::NvIncrement { .. } => Ok(Reply::NvIncrement),
            Command::Duplicate { object, .. } => duplicate::reply(alloc, self, *object),
            _ => Ok(Reply::Refused(Rc { code: COMMAND_CODE })),
        }
    }

    /// Carries out such a command whose rules hold; it takes no memory.
    pub fn carry_out(&mut self, command: &Command)
        requires rule { spec.plain_rule self.old command.now ≡ None }
        ensures world { self.new ≡ spec.world_after self.old command.now }
    {
        match command {
            Command::PcrExtend { pcr, digest, .. } => pcr_extend::carry_out(self, *pcr, digest),
            Command::NvWrite {
                authority,
                index,
                bytes,
                offset,
                ..
            } => nv_write::carry_out(self, *authority, *index, bytes.as_slice(), *offset),
            Command::NvIncrement {
                authority,
                index,
                ..
            } => nv_increment::carry_out(self, *authority, *index),
            _ => {}
        }
    }
}
