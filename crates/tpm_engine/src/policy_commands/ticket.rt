//! The tickets that PolicySigned and PolicySecret answer.

ghost use Rattle.std.specs.Prelude.{◌≡◌, ◌≤◌, ◌^◌, IfOk};
ghost use Rattle.tpm_engine.specs.PolicyCommands as spec;

use std::alloc::Global;
use tpm_auth::auth_ticket;
use tpm_rules::deadline_of;
use tpm_world::World;
use tpol_base::handle::{TPM_RH_NULL, TPM_RH_OWNER};
use tpol_base::{Blob, Digest32, Name, NoMemory};
use tpol_wire::Ticket;

// The deadline that a reply tells: that of a negative expiration, on a session that started at this time.
pub fn timeout_of(start: u64, nonce: &[u8], expiration: i32) -> Option<u64>
    requires early { start ≤ 2 ^ 63 }
    ensures { result ≡ spec.timeout_of start nonce.now expiration }
{
    if expiration < 0 {
        deadline_of(start, nonce, expiration)
    } else {
        None
    }
}

// The ticket that goes with it, or the null ticket.
pub fn ticket_of(
    alloc: Global,
    world: &World,
    tag: u16,
    name: &Name,
    cp_hash: Option<Digest32>,
    policy_ref: &[u8],
    timeout: Option<u64>,
) -> Result<Ticket, NoMemory>
    ensures { IfOk result (λ ticket. ticket
        ≡ spec.ticket_of world.now tag name.now cp_hash policy_ref.now timeout) }
{
    match timeout {
        Some(deadline) => {
            let digest = ticket_digest(world, tag, deadline, &cp_hash, policy_ref, name);
            Ok(Ticket {
                tag,
                hierarchy: TPM_RH_OWNER,
                digest: Blob::from_slice(alloc, &digest.bytes)?,
            })
        }
        None => Ok(Ticket {
            tag,
            hierarchy: TPM_RH_NULL,
            digest: Blob::new(alloc),
        }),
    }
}

// The digest of a ticket.
fn ticket_digest(
    world: &World,
    tag: u16,
    deadline: u64,
    cp_hash: &Option<Digest32>,
    policy_ref: &[u8],
    name: &Name,
) -> Digest32
    ensures { result ≡ spec.ticket_digest world.now tag name.now cp_hash.now policy_ref.now
        deadline }
{
    let limit = match cp_hash {
        Some(digest) => digest.bytes.as_slice(),
        None => &[],
    };
    auth_ticket(
        &world.proof(),
        tag,
        deadline,
        world.reset_count(),
        limit,
        policy_ref,
        name,
    )
}
