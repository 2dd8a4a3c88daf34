//! The commands of assertions.

ghost use Rattle.std.specs.Prelude.{◌≡◌, IfOk};
ghost use Rattle.tpol_driver.specs.Commands.{command_of_assertion};
ghost use Rattle.tpol_driver.specs.Codes.{code_of_assertion};

use crate::commands::{Means, policy_nv, policy_secret, policy_signed};
use std::alloc::Global;
use tpol_base::{CommandCode, NoMemory};
use tpol_tree::Assertion;
use tpol_wire::Command;

/// The command of an assertion.
pub(crate) fn command(
    alloc: Global,
    means: &Means<'_>,
    assertion: &Assertion,
) -> Result<Command, NoMemory>
    ensures { IfOk result (λ command. command
        ≡ command_of_assertion means.now.directory.now means.now.grants.now means.now.session.now
        assertion.now) }
{
    match assertion {
        Assertion::Nv {
            index,
            operand,
            offset,
            operation,
        } => policy_nv::command(alloc, means, index, operand, *offset, *operation),
        Assertion::Secret {
            entity,
            policy_ref,
            cp_hash,
            expiration,
        } => policy_secret::command(alloc, means, entity, policy_ref, *cp_hash, *expiration),
        Assertion::Signed {
            key,
            policy_ref,
            cp_hash,
            expiration,
        } => policy_signed::command(alloc, means, key, policy_ref, *cp_hash, *expiration),
        Assertion::CounterTimer {
            operand,
            offset,
            operation,
        } => Ok(Command::PolicyCounterTimer {
            session: means.session.handle,
            operand: operand.clone()?,
            offset: *offset,
            operation: *operation,
        }),
        Assertion::Pcr {
            mask,
            pcr_digest,
            ..
        } => Ok(Command::PolicyPcr {
            session: means.session.handle,
            given: Some(*pcr_digest),
            mask: *mask,
        }),
        Assertion::CommandCode(code) => Ok(Command::PolicyCommandCode {
            session: means.session.handle,
            code: *code,
        }),
        Assertion::Locality(locality) => Ok(Command::PolicyLocality {
            session: means.session.handle,
            locality: *locality,
        }),
        Assertion::CpHash(digest) => Ok(Command::PolicyCpHash {
            session: means.session.handle,
            digest: *digest,
        }),
        Assertion::NameHash(digest) => Ok(Command::PolicyNameHash {
            session: means.session.handle,
            digest: *digest,
        }),
        Assertion::NvWritten(written) => Ok(Command::PolicyNvWritten {
            session: means.session.handle,
            written: *written,
        }),
        Assertion::AuthValue => Ok(Command::PolicyAuthValue {
            session: means.session.handle,
        }),
        Assertion::Password => Ok(Command::PolicyPassword {
            session: means.session.handle,
        }),
        Assertion::PhysicalPresence => Ok(Command::PolicyPhysicalPresence {
            session: means.session.handle,
        }),
        Assertion::Duplication {
            object,
            parent,
            include,
        } => Ok(Command::PolicyDuplicationSelect {
            session: means.session.handle,
            object: *object,
            parent: *parent,
            include: *include,
        }),
    }
}

/// The code of an assertion's command.
pub(crate) fn code(assertion: &Assertion) -> CommandCode
    ensures { result ≡ code_of_assertion assertion.now }
{
    match assertion {
        Assertion::Pcr { .. } => CommandCode::PolicyPcr,
        Assertion::Nv { .. } => CommandCode::PolicyNv,
        Assertion::Secret { .. } => CommandCode::PolicySecret,
        Assertion::Signed { .. } => CommandCode::PolicySigned,
        Assertion::CounterTimer { .. } => CommandCode::PolicyCounterTimer,
        Assertion::CommandCode(_) => CommandCode::PolicyCommandCode,
        Assertion::Locality(_) => CommandCode::PolicyLocality,
        Assertion::CpHash(_) => CommandCode::PolicyCpHash,
        Assertion::NameHash(_) => CommandCode::PolicyNameHash,
        Assertion::NvWritten(_) => CommandCode::PolicyNvWritten,
        Assertion::AuthValue => CommandCode::PolicyAuthValue,
        Assertion::Password => CommandCode::PolicyPassword,
        Assertion::PhysicalPresence => CommandCode::PolicyPhysicalPresence,
        Assertion::Duplication { .. } => CommandCode::PolicyDuplicationSelect,
    }
}
