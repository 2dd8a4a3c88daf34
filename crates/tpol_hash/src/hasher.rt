//! SHA-256 of a message that comes in pieces.

ghost use Rattle.std.specs.Prelude.{◌≡◌, ℕ, List, [], ◌++◌};
ghost use Rattle.tpol_base.specs.Name.{name_bytes};
ghost use Rattle.tpol_base.specs.Sized.{sized};
ghost use Rattle.tpol_hash.specs.Messages.{Holds};
ghost use Rattle.tpol_hash.specs.Sha256.{sha256_digest};

use sha2::{Digest, Sha256};
use tpol_base::{Digest32, Name};

/// A running SHA-256 (FIPS 180-4).
#[derive(Drop)]
pub struct Hasher {
    sha: Sha256,
}

impl Hasher {
    /// A hasher of the empty message.
    pub fn new() -> Hasher
        ensures empty { Holds result [] }
    {
        Hasher { sha: Sha256::new() }
    }

    /// Adds bytes to the message.
    pub fn put(&mut self, bytes: &[u8])
        ensures longer { (m : List ℕ) → Holds self.old m → Holds self.new (m ++ bytes.now) }
    {
        self.sha.update(bytes);
    }

    /// Adds the bytes of a Name to the message.
    pub fn put_name(&mut self, name: &Name)
        ensures longer { (m : List ℕ) → Holds self.old m
            → Holds self.new (m ++ name_bytes name.now) }
    {
        self.put(name.bytes().as_slice());
    }

    /// Adds a sized buffer to the message: the last two bytes of the length, the high one first, and the
    /// bytes (TPM 2.0 Part 2, "TPM2B").
    pub fn put_sized(&mut self, bytes: &[u8])
        ensures longer { (m : List ℕ) → Holds self.old m → Holds self.new (m ++ sized bytes.now) }
    {
        let length = bytes.len().to_be_bytes();
        self.put(&length[6..]);
        self.put(bytes);
    }

    /// The digest of the message.
    pub fn done(self) -> Digest32
        ensures digest { (m : List ℕ) → Holds self m → result ≡ sha256_digest m }
    {
        Digest32 {
            bytes: self.sha.finalize(),
        }
    }
}

/// The SHA-256 digest of a message.
pub fn hash(bytes: &[u8]) -> Digest32
    ensures digest { result ≡ sha256_digest bytes.now }
{
    let mut hasher = Hasher::new();
    hasher.put(bytes);
    hasher.done()
}
