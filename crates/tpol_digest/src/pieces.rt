// What an assertion hashes behind its command's code: what is compared, the rest and the policyRef. The rest
// comes as part of a message, for the digest, and as bytes, for the strings.

ghost use Rattle.std.specs.Prelude.{◌≡◌, ◌++◌, List, ℕ, IfOk, OnOk};
ghost use Rattle.std.specs.Option.{option_copied, option_map};
ghost use Rattle.tpol_base.specs.Name.{name_bytes};
ghost use Rattle.tpol_digest.specs.Update.{duplication, update_of_assertion};
ghost use Rattle.tpol_hash.specs.Messages.{Holds};

use crate::update::comparison_end;
use std::alloc::Global;
use tpol_base::{Blob, Name, NoMemory, pcr};
use tpol_hash::Hasher;
use tpol_tree::Assertion;

// Adds what an assertion hashes behind its command's code and the digest of a comparison to a message. It takes
// no memory.
pub fn put_rest(hasher: &mut Hasher, assertion: &Assertion)
    ensures longer { (m : List ℕ) → Holds hasher.old m
        → Holds hasher.new (m ++ (update_of_assertion assertion.now).rest) }
{
    match assertion {
        Assertion::Pcr {
            mask,
            pcr_digest,
            ..
        } => put_both(hasher, &pcr::selection(*mask), &pcr_digest.bytes),
        Assertion::Nv { index: name, .. }
        | Assertion::Secret { entity: name, .. }
        | Assertion::Signed { key: name, .. } => hasher.put_name(name),
        Assertion::CounterTimer { .. }
        | Assertion::AuthValue
        | Assertion::Password
        | Assertion::PhysicalPresence => {}
        Assertion::CommandCode(command) => hasher.put(&command.to_be_bytes()),
        Assertion::Locality(localities) => hasher.put(&[*localities]),
        Assertion::CpHash(digest) | Assertion::NameHash(digest) => hasher.put(&digest.bytes),
        Assertion::NvWritten(written) => hasher.put(&[u8::from(*written)]),
        Assertion::Duplication {
            object,
            parent,
            include,
        } => {
            if *include {
                hasher.put_name(object);
            }
            hasher.put_name(parent);
            hasher.put(&[u8::from(*include)]);
        }
    }
}

// Adds two strings to a message.
fn put_both(hasher: &mut Hasher, front: &[u8], behind: &[u8])
    ensures longer { (m : List ℕ) → Holds hasher.old m
        → Holds hasher.new (m ++ (front.now ++ behind.now)) }
{
    hasher.put(front);
    hasher.put(behind);
}

// What an assertion hashes behind its command's code and the digest of a comparison, as bytes.
pub fn rest_of(alloc: Global, assertion: &Assertion) -> Result<Blob, NoMemory>
    ensures { IfOk result (λ bytes. bytes ≡ (update_of_assertion assertion.now).rest) }
{
    match assertion {
        Assertion::Pcr {
            mask,
            pcr_digest,
            ..
        } => both(alloc, &pcr::selection(*mask), &pcr_digest.bytes),
        Assertion::Nv { index: name, .. }
        | Assertion::Secret { entity: name, .. }
        | Assertion::Signed { key: name, .. } => name.to_bytes(alloc),
        Assertion::CounterTimer { .. }
        | Assertion::AuthValue
        | Assertion::Password
        | Assertion::PhysicalPresence => Ok(Blob::new(alloc)),
        Assertion::CommandCode(command) => Blob::from_slice(alloc, &command.to_be_bytes()),
        Assertion::Locality(localities) => Blob::from_slice(alloc, &[*localities]),
        Assertion::CpHash(digest) | Assertion::NameHash(digest) => {
            Blob::from_slice(alloc, &digest.bytes)
        }
        Assertion::NvWritten(written) => Blob::from_slice(alloc, &[u8::from(*written)]),
        Assertion::Duplication {
            object,
            parent,
            include,
        } => {
            let mut bytes = Blob::new(alloc);
            push_duplication(&mut bytes, object, parent, *include)?;
            Ok(bytes)
        }
    }
}

// Adds the Names that a duplication is bound to, and whether the object's is one of them.
fn push_duplication(
    bytes: &mut Blob,
    object: &Name,
    parent: &Name,
    include: bool,
) -> Result<(), NoMemory>
    ensures { OnOk result (bytes.new
        ≡ bytes.old ++ duplication include (name_bytes object.now) (name_bytes parent.now)) }
{
    if include {
        bytes.extend_from_slice(object.bytes().as_slice())?;
    }
    bytes.extend_from_slice(parent.bytes().as_slice())?;
    bytes.extend_from_slice(&[u8::from(include)])
}

// Two strings joined, in room for both.
pub fn both(alloc: Global, front: &[u8], behind: &[u8]) -> Result<Blob, NoMemory>
    ensures { IfOk result (λ bytes. bytes ≡ front.now ++ behind.now) }
{
    let room = front.len().saturating_add(behind.len());
    let mut bytes = Vec::with_capacity(alloc, room)?;
    bytes.extend_from_slice(front)?;
    bytes.extend_from_slice(behind)?;
    Ok(Blob::from_vec(bytes))
}

// What PolicyNV and PolicyCounterTimer compare with, and the bytes behind it.
pub fn comparison_of(assertion: &Assertion) -> Option<(&Blob, [u8; 4])>
    ensures { option_map (λ compared. compared.0.now ++ compared.1) result
        ≡ (update_of_assertion assertion.now).inner }
{
    match assertion {
        Assertion::Nv {
            operand,
            offset,
            operation,
            ..
        }
        | Assertion::CounterTimer {
            operand,
            offset,
            operation,
        } => Some((operand, comparison_end(*offset, *operation))),
        _ => None,
    }
}

// What a second hash takes behind the first digest, where there is a second one.
pub fn policy_ref_of(assertion: &Assertion) -> Option<&Blob>
    ensures { option_copied result ≡ (update_of_assertion assertion.now).policy_ref }
{
    match assertion {
        Assertion::Secret { policy_ref, .. } | Assertion::Signed { policy_ref, .. } => {
            Some(policy_ref)
        }
        _ => None,
    }
}
