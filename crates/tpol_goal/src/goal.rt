//! The command that a client wants.

ghost use Rattle.std.specs.Prelude.{◌≡◌, IfOk};
ghost use Rattle.std.proofs.Common.{rules};
ghost use Rattle.tpol_base.specs.Constants.{alg_sha256};
ghost use Rattle.tpol_wire.specs.declared.command.Command.TheVariants as commands;
ghost use Rattle.tpol_goal.specs.Commands.{command_of_goal};
ghost use Rattle.tpol_goal.specs.Goals.{code_of_goal, entity_of_goal, second_handle};

use tpol_base::constants::TPM_ALG_SHA256;
use tpol_base::{Blob, CommandCode, ExactClone, NoMemory};
use tpol_wire::{AuthArea, Command};

/// The command that a client wants to be carried out, authorized by a policy session on its first handle
/// (TPM 2.0 Part 3, under the command's name).
#[derive(Clone, Drop)]
pub enum Goal {
    /// Unseal: the secret of this sealed object.
    Unseal {
        object: u32,
    },
    /// HMAC over SHA-256 under this key of a buffer of at most 1,024 bytes.
    Hmac {
        key: u32,
        buffer: Blob,
    },
    /// NV_Read: `size` bytes (at most 1,024) of this index's content from `offset`.
    NvRead {
        index: u32,
        size: u16,
        offset: u16,
    },
    /// NV_Write: at most 1,024 bytes into this index's content from `offset`.
    NvWrite {
        index: u32,
        offset: u16,
        bytes: Blob,
    },
    /// NV_Increment: one more in this counter.
    NvIncrement {
        index: u32,
    },
    /// Duplicate: this object for a new parent, an object or TPM_RH_NULL.
    Duplicate {
        object: u32,
        parent: u32,
    },
}

impl ExactClone for Goal {
    ghost same = { Prim.search rules };
}

impl Goal {
    /// The command's code.
    pub fn code(&self) -> CommandCode
        ensures code { result ≡ code_of_goal self.now }
    {
        match self {
            Goal::Unseal { .. } => CommandCode::Unseal,
            Goal::Hmac { .. } => CommandCode::Hmac,
            Goal::NvRead { .. } => CommandCode::NvRead,
            Goal::NvWrite { .. } => CommandCode::NvWrite,
            Goal::NvIncrement { .. } => CommandCode::NvIncrement,
            Goal::Duplicate { .. } => CommandCode::Duplicate,
        }
    }

    /// The handle of the entity that the policy session is used on: the command's first handle.
    pub fn entity(&self) -> u32
        ensures handle { result ≡ entity_of_goal self.now }
    {
        match self {
            Goal::Unseal { object } | Goal::Duplicate { object, .. } => *object,
            Goal::Hmac { key, .. } => *key,
            Goal::NvRead { index, .. }
            | Goal::NvWrite { index, .. }
            | Goal::NvIncrement { index } => *index,
        }
    }

    /// The command's second handle, where it has one: the index, which authorizes itself, or the new parent.
    pub fn second_handle(&self) -> Option<u32>
        ensures handle { result ≡ second_handle self.now }
    {
        match self {
            Goal::Unseal { .. } | Goal::Hmac { .. } => None,
            Goal::NvRead { index, .. }
            | Goal::NvWrite { index, .. }
            | Goal::NvIncrement { index } => Some(*index),
            Goal::Duplicate { parent, .. } => Some(*parent),
        }
    }

    /// The command with this authorization (TPM 2.0 Part 3, under its name): an index authorizes itself, and
    /// HMAC is over SHA-256. It fails only where memory ran out.
    pub fn command(&self, auth: AuthArea) -> Result<Command, NoMemory>
        ensures command { IfOk result (λ command. command ≡ command_of_goal self.now auth) }
    {
        match self {
            Goal::Unseal { object } => Ok(Command::Unseal {
                object: *object,
                auth,
            }),
            Goal::Hmac { key, buffer } => hmac_command(*key, auth, buffer),
            Goal::NvRead {
                index,
                size,
                offset,
            } => Ok(Command::NvRead {
                authority: *index,
                index: *index,
                auth,
                size: *size,
                offset: *offset,
            }),
            Goal::NvWrite {
                index,
                offset,
                bytes,
            } => write_command(*index, auth, bytes, *offset),
            Goal::NvIncrement { index } => Ok(Command::NvIncrement {
                authority: *index,
                index: *index,
                auth,
            }),
            Goal::Duplicate { object, parent } => Ok(Command::Duplicate {
                object: *object,
                parent: *parent,
                auth,
            }),
        }
    }
}

// HMAC of a buffer under a key, over SHA-256.
fn hmac_command(key: u32, auth: AuthArea, buffer: &Blob) -> Result<Command, NoMemory>
    ensures { IfOk result (λ command. command ≡ commands.Hmac key auth buffer.now alg_sha256) }
{
    Ok(Command::Hmac {
        key,
        auth,
        buffer: buffer.clone()?,
        hash: TPM_ALG_SHA256,
    })
}

// NV_Write of bytes into an index, which authorizes itself.
fn write_command(index: u32, auth: AuthArea, bytes: &Blob, offset: u16) -> Result<Command, NoMemory>
    ensures { IfOk result (λ command. command
        ≡ commands.NvWrite index index auth bytes.now offset) }
{
    Ok(Command::NvWrite {
        authority: index,
        index,
        auth,
        bytes: bytes.clone()?,
        offset,
    })
}
