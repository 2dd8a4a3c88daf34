//! PolicyTicket (TPM 2.0 Part 3).

ghost use Rattle.std.specs.Prelude.{◌≡◌, IfOk};
ghost use Rattle.tpol_driver.specs.Tickets.{tag_of_ticket, ticket_command};

use crate::session::Session;
use crate::tickets::HeldTicket;
use std::alloc::Global;
use tpol_base::constants::{TPM_ST_AUTH_SECRET, TPM_ST_AUTH_SIGNED};
use tpol_base::handle::TPM_RH_OWNER;
use tpol_base::{Blob, NoMemory};
use tpol_wire::{Command, Ticket};

/// The ticket in place of the assertion that it stands for.
pub(crate) fn command(
    alloc: Global,
    session: &Session,
    held: &HeldTicket,
) -> Result<Command, NoMemory>
    ensures { IfOk result (λ command. command ≡ ticket_command session.now held.now) }
{
    Ok(Command::PolicyTicket {
        session: session.handle,
        timeout: held.deadline,
        cp_hash: held.cp_hash,
        policy_ref: held.policy_ref.clone()?,
        key: held.key,
        ticket: Ticket {
            tag: tag(held.signed),
            hierarchy: TPM_RH_OWNER,
            digest: Blob::from_slice(alloc, &held.digest.bytes)?,
        },
    })
}

// The tag of a ticket of PolicySigned or of PolicySecret.
fn tag(signed: bool) -> u16
    ensures { result ≡ tag_of_ticket signed }
{
    if signed {
        TPM_ST_AUTH_SIGNED
    } else {
        TPM_ST_AUTH_SECRET
    }
}
