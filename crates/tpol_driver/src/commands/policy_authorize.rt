//! VerifySignature and the PolicyAuthorize that takes its ticket (TPM 2.0 Part 3).

ghost use Rattle.std.specs.Prelude.{◌≡◌, IfOk};
ghost use Rattle.tpol_driver.specs.Commands.{approval_command, verify_signature};

use crate::commands::{Means, handles};
use tpol_base::{Blob, Digest32, Name, NoMemory};
use tpol_hash::Hasher;
use tpol_name::DirEntry;
use tpol_wire::{Command, Ticket};

/// The next command of an approval by a key: VerifySignature, and with the ticket of that PolicyAuthorize.
pub(crate) fn command(
    means: &Means<'_>,
    ticket: &Option<Ticket>,
    key: &Name,
    policy_ref: &Blob,
    approved: &Digest32,
    signature: &Digest32,
) -> Result<Command, NoMemory>
    ensures { IfOk result (λ command. command
        ≡ approval_command means.now.directory.now means.now.session.now ticket.now key.now
        policy_ref.now approved.now signature.now) }
{
    match ticket {
        None => Ok(verification(means.directory, key, policy_ref, approved, signature)),
        Some(ticket) => Ok(Command::PolicyAuthorize {
            session: means.session.handle,
            approved: *approved,
            policy_ref: policy_ref.clone()?,
            key: *key,
            ticket: Ticket {
                tag: ticket.tag,
                hierarchy: ticket.hierarchy,
                digest: ticket.digest.clone()?,
            },
        }),
    }
}

// The verification of the approval's signature, which is over the hash of the approved digest and policyRef.
fn verification(
    directory: &[DirEntry],
    key: &Name,
    policy_ref: &Blob,
    approved: &Digest32,
    signature: &Digest32,
) -> Command
    ensures { result ≡ verify_signature directory.now key.now policy_ref.now approved.now
        signature.now }
{
    let mut hasher = Hasher::new();
    hasher.put(&approved.bytes);
    hasher.put(policy_ref.as_slice());
    Command::VerifySignature {
        key: handles::key(directory, key),
        digest: hasher.done(),
        signature: *signature,
    }
}
