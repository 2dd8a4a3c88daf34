//! Tickets that stand for the assertions that earned them (TPM 2.0 Part 3, PolicyTicket).

ghost use Rattle.std.specs.Prelude.{◌≡◌, ◌++◌, ◌∷◌, [], length, OnOk, OnErr};
ghost use Rattle.std.specs.Option.{option_copied};
ghost use Rattle.tpol_driver.specs.Answers.{HasWholeTicket};
ghost use Rattle.tpol_driver.specs.Tickets.{earned_in, earned_ticket, is_for, is_same_cp_hash, stands_for, ticket_for};

use crate::answer::Answer;
use tpol_base::{Blob, Digest32, ExactClone, Name, NoMemory, Sequence};
use tpol_tree::{Assertion, Move};
use tpol_wire::{Reply, Ticket};

/// A ticket that PolicySigned or PolicySecret was answered with, and what it stands for.
#[derive(Clone, Drop)]
pub struct HeldTicket {
    /// Whether it is of PolicySigned, else of PolicySecret.
    pub signed: bool,
    /// The Name of the key that signed, or of the entity whose secret was known.
    pub key: Name,
    pub policy_ref: Blob,
    pub cp_hash: Option<Digest32>,
    /// The time of the machine, in milliseconds, up to which it is taken.
    pub deadline: u64,
    /// The machine's reset count when it was answered. A run does not see it, and earns its tickets with 0 here.
    pub reset_count: u32,
    /// The machine's HMAC over all of that.
    pub digest: Digest32,
}

impl ExactClone for HeldTicket {
    ghost use Rattle.std.proofs.Common.{rules};

    ghost same = { Prim.search rules };
}

/// Tickets, those that are looked at first in front.
pub type Tickets = Sequence<HeldTicket>;

/// The first of these tickets that stands for a move.
pub(crate) fn ticket_for<'a>(tickets: &'a [HeldTicket], act: &Move) -> Option<&'a HeldTicket>
    ensures { option_copied result ≡ ticket_for tickets.now act.now }
{
    tickets.iter().find(|held| stands_for(held, act))
}

fn stands_for(held: &HeldTicket, act: &Move) -> bool
    ensures { result ≡ stands_for held.now act.now }
{
    match act {
        Move::Assert(
            Assertion::Secret {
                entity,
                policy_ref,
                cp_hash,
                ..
            },
        ) => !held.signed && is_for(held, entity, policy_ref, cp_hash),
        Move::Assert(
            Assertion::Signed {
                key,
                policy_ref,
                cp_hash,
                ..
            },
        ) => held.signed && is_for(held, key, policy_ref, cp_hash),
        _ => false,
    }
}

fn is_for(held: &HeldTicket, name: &Name, policy_ref: &Blob, cp_hash: &Option<Digest32>) -> bool
    ensures { result ≡ is_for held.now name.now policy_ref.now cp_hash.now }
{
    held.key == *name
        && held.policy_ref.as_slice() == policy_ref.as_slice()
        && is_same_cp_hash(&held.cp_hash, cp_hash)
}

fn is_same_cp_hash(a: &Option<Digest32>, b: &Option<Digest32>) -> bool
    ensures { result ≡ is_same_cp_hash a.now b.now }
{
    match (a, b) {
        (None, None) => true,
        (Some(a), Some(b)) => a == b,
        _ => false,
    }
}

/// Puts the ticket that an answer to a move's command earns, if any, behind those that were earned before. After
/// `NoMemory` these are as before.
pub(crate) fn earn(earned: &mut Tickets, act: &Move, answer: &Answer) -> Result<(), NoMemory>
    requires { HasWholeTicket answer.now }
    ensures ok { OnOk result (earned.new ≡ earned.old ++ earned_in (Some act.now) answer.now) }
    ensures err { OnErr result (earned.new ≡ earned.old) }
{
    match (act, answer) {
        (
            Move::Assert(
                Assertion::Secret {
                    entity,
                    policy_ref,
                    cp_hash,
                    ..
                },
            ),
            Answer::Done(
                Reply::PolicySecret {
                    timeout: Some(deadline),
                    ticket,
                },
                _,
            ),
        ) => put(
            earned, false, entity, policy_ref, *cp_hash, *deadline, ticket,
        ),
        (
            Move::Assert(
                Assertion::Signed {
                    key,
                    policy_ref,
                    cp_hash,
                    ..
                },
            ),
            Answer::Done(
                Reply::PolicySigned {
                    timeout: Some(deadline),
                    ticket,
                },
                _,
            ),
        ) => put(earned, true, key, policy_ref, *cp_hash, *deadline, ticket),
        _ => Ok(()),
    }
}

// Puts the ticket of an assertion behind those that were earned before.
fn put(
    earned: &mut Tickets,
    signed: bool,
    key: &Name,
    policy_ref: &Blob,
    cp_hash: Option<Digest32>,
    deadline: u64,
    ticket: &Ticket,
) -> Result<(), NoMemory>
    requires { length ticket.now.digest ≡ 32 }
    ensures ok { OnOk result (earned.new
        ≡ earned.old ++ earned_ticket signed key.now policy_ref.now cp_hash deadline ticket.now
        ∷ []) }
    ensures err { OnErr result (earned.new ≡ earned.old) }
{
    let ticket = HeldTicket {
        signed,
        key: *key,
        policy_ref: policy_ref.clone()?,
        cp_hash,
        deadline,
        reset_count: 0,
        digest: Digest32::from_slice(ticket.digest.as_slice()),
    };
    earned.push(ticket)
}
