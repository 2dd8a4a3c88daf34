// The update of a policy digest, of which each policy command has its own (TPM 2.0 Part 3): the hash of
// the digest before, the command's code and its arguments, and in some commands a second hash.

ghost use Rattle.std.specs.Prelude.{◌≡◌, ◌++◌};
ghost use Rattle.std.specs.Int.{to_be_bytes, w16, w32};
ghost use Rattle.std.specs.Option.{option_copied};
ghost use Rattle.tpol_base.specs.CommandCode.{number_of_code};
ghost use Rattle.tpol_base.specs.Compare.{number_of_compare};
ghost use Rattle.tpol_base.specs.Name.{name_bytes};
ghost use Rattle.tpol_hash.specs.Sha256.{sha256_digest};
ghost use Rattle.tpol_hash.specs.Messages.{Holds};
ghost use Rattle.tpol_digest.specs.Digest.{after_second, after_update};
ghost use Rattle.tpol_digest.specs.Update.{two_hashes};

use tpol_base::{Blob, CommandCode, Compare, Digest32, Name};
use tpol_hash::Hasher;

// A hasher that holds the digest before and the command's code.
pub fn start(old: &Digest32, code: u32) -> Hasher
    ensures { Holds result (old.now.bytes ++ to_be_bytes w32 code) }
{
    let mut hasher = Hasher::new();
    hasher.put(&old.bytes);
    hasher.put(&code.to_be_bytes());
    hasher
}

/// The digest after a command that hashes a Name, and then the first digest with the policyRef (TPM 2.0 Part 3,
/// PolicySecret, PolicySigned and PolicyAuthorize).
pub fn hash_twice(old: &Digest32, command: CommandCode, name: &Name, policy_ref: &Blob) -> Digest32
    ensures { result ≡ after_update
        (two_hashes (number_of_code command) (name_bytes name.now) policy_ref.now) old.now }
{
    let mut hasher = start(old, command.number());
    hasher.put_name(name);
    hash_again(hasher.done(), Some(policy_ref))
}

// The digest after a second hash with the policyRef, if there is one.
pub fn hash_again(first: Digest32, policy_ref: Option<&Blob>) -> Digest32
    ensures { result ≡ after_second (option_copied policy_ref.entry) first }
{
    match policy_ref {
        None => first,
        Some(policy_ref) => digest_of_two(&first.bytes, policy_ref.as_slice()),
    }
}

// The digest of two strings joined.
pub fn digest_of_two(front: &[u8], behind: &[u8]) -> Digest32
    ensures { result ≡ sha256_digest (front.now ++ behind.now) }
{
    let mut hasher = Hasher::new();
    hasher.put(front);
    hasher.put(behind);
    hasher.done()
}

// The bytes behind the operand of a comparison.
pub fn comparison_end(offset: u16, operation: Compare) -> [u8; 4]
    ensures { result ≡ to_be_bytes w16 offset ++ to_be_bytes w16 (number_of_compare operation) }
{
    let [high, low] = offset.to_be_bytes();
    let [number_high, number_low] = operation.number().to_be_bytes();
    [high, low, number_high, number_low]
}
