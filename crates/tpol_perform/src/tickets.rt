//! Tickets that are kept for the later runs of a client.

ghost use Rattle.std.specs.Prelude.{◌≡◌, ◌∷◌, ◌++◌, [], IfOk, OnOk};
ghost use Rattle.tpol_perform.specs.Tickets.{is_of_index, is_usable, kept_of, tickets_for, tickets_given, with_kept};

use crate::performance::Performance;
use std::alloc::Global;
use tpol_base::handle::HandleKind;
use tpol_base::{ExactClone, NoMemory};
use tpol_driver::{HeldTicket, Tickets};
use tpol_goal::entity_of_name;
use tpol_name::{DirEntry, Sight};
use tpol_prepare::Way;

/// A ticket that is kept, and the client whose run was answered with it.
#[derive(Drop)]
pub struct Kept {
    pub client: u32,
    pub ticket: HeldTicket,
}

impl Performance {
    /// Keeps the tickets that a run of this client has earned, but none of a PolicySecret on an index, behind those
    /// kept before. The call fails only where memory ran out.
    pub fn keep(
        &mut self,
        directory: &[DirEntry],
        client: u32,
        earned: &[HeldTicket],
    ) -> Result<(), NoMemory>
        ensures told { OnOk result (self.new ≡ with_kept directory.now client earned.now self.old) }
        ensures past { OnOk result (self.new.past ≡ self.old.past) }
        ensures setup { OnOk result (self.new.setup ≡ self.old.setup) }
    {
        for ticket in earned {
            self.keep_ticket(directory, client, ticket)?;
        }
        Ok(())
    }

    fn keep_ticket(
        &mut self,
        directory: &[DirEntry],
        client: u32,
        ticket: &HeldTicket,
    ) -> Result<(), NoMemory>
        ensures told { OnOk result (self.new
            ≡ record self.old {
              kept = self.old.kept
                  ++ kept_of directory.now client (ticket.now ∷ []);
            }) }
    {
        if !is_of_index(directory, ticket) {
            let ticket = ticket.exact_clone()?;
            self.kept.push(Kept { client, ticket })?;
        }
        Ok(())
    }

    /// The tickets that a run of this client is given when it begins with this view of the machine. The call fails only
    /// where memory ran out.
    pub fn tickets_given(
        &self,
        alloc: Global,
        way: Way,
        client: u32,
        sight: &Sight,
    ) -> Result<Tickets, NoMemory>
        ensures { IfOk result (λ tickets. tickets
            ≡ tickets_given way client sight.now self.now.kept) }
    {
        match way {
            Way::Sighted | Way::Blind => Ok(Tickets::new(alloc)),
            Way::WithTickets => tickets_for(alloc, client, sight, self.kept.as_slice()),
        }
    }
}

// Whether a ticket is of PolicySecret on an index.
fn is_of_index(directory: &[DirEntry], ticket: &HeldTicket) -> bool
    ensures { result ≡ is_of_index directory.now ticket.now }
{
    if ticket.signed {
        return false;
    }
    match entity_of_name(directory, &ticket.key) {
        Some(handle) => HandleKind::of(handle) == Some(HandleKind::Index),
        None => false,
    }
}

fn tickets_for(
    alloc: Global,
    client: u32,
    sight: &Sight,
    kept: &[Kept],
) -> Result<Tickets, NoMemory>
    ensures { IfOk result (λ tickets. tickets ≡ tickets_for client sight.now kept.now) }
{
    let mut tickets = Tickets::new(alloc);
    for entry in kept {
        if is_usable(client, sight, entry) {
            tickets.push(entry.ticket.exact_clone()?)?;
        }
    }
    Ok(tickets)
}

// Whether a run of this client can use a ticket on what the machine shows.
fn is_usable(client: u32, sight: &Sight, kept: &Kept) -> bool
    ensures { result ≡ is_usable client sight.now kept.now }
{
    kept.client == client
        && kept.ticket.reset_count == sight.reset_count
        && sight.time <= kept.ticket.deadline
}
