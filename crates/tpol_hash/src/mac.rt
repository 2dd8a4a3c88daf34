//! HMAC over SHA-256.

ghost use Rattle.std.specs.Prelude.{◌≡◌, ℕ, List, [], ◌++◌, map, bit_xor};
ghost use Rattle.tpol_base.specs.Sized.{sized};
ghost use Rattle.tpol_hash.specs.Hmac.{block_key, hmac_sha256};
ghost use Rattle.tpol_hash.specs.Messages.{HoldsUnder};

use crate::hasher::{Hasher, hash};
use tpol_base::Digest32;

/// The block of SHA-256 in bytes.
const BLOCK: usize = 64;

/// The byte that each byte of the key's block is combined with by exclusive or for the inner hash, `ipad` in the
/// standard.
const INNER_PAD: u8 = 0x36;

/// The byte that each byte of the key's block is combined with by exclusive or for the outer hash, `opad` in the
/// standard.
const OUTER_PAD: u8 = 0x5c;

/// A running HMAC over SHA-256 (FIPS 198-1).
#[derive(Drop)]
pub struct Mac {
    inner: Hasher,
    outer: Hasher,
}

impl Mac {
    /// An HMAC of the empty message under a key of any length. A key longer than a block of 64 bytes
    /// is hashed first.
    pub fn new(key: &[u8]) -> Mac
        ensures empty { HoldsUnder result key.now [] }
    {
        let block = key_block(key);
        let mut inner = Hasher::new();
        inner.put(&padded(&block, INNER_PAD));
        let mut outer = Hasher::new();
        outer.put(&padded(&block, OUTER_PAD));
        Mac { inner, outer }
    }

    /// Adds bytes to the message.
    pub fn put(&mut self, bytes: &[u8])
        ensures longer { (key m : List ℕ) → HoldsUnder self.old key m
            → HoldsUnder self.new key (m ++ bytes.now) }
    {
        self.inner.put(bytes);
    }

    /// Adds a sized buffer to the message: the last two bytes of the length, the high one first, and the
    /// bytes (TPM 2.0 Part 2, "TPM2B").
    pub fn put_sized(&mut self, bytes: &[u8])
        ensures longer { (key m : List ℕ) → HoldsUnder self.old key m
            → HoldsUnder self.new key (m ++ sized bytes.now) }
    {
        let length = bytes.len().to_be_bytes();
        self.put(&length[6..]);
        self.put(bytes);
    }

    /// The HMAC of the message.
    pub fn done(self) -> Digest32
        ensures digest { (key m : List ℕ) → HoldsUnder self key m → result ≡ hmac_sha256 key m }
    {
        let Mac { inner, mut outer } = self;
        let inner_digest = inner.done();
        outer.put(&inner_digest.bytes);
        outer.done()
    }
}

/// The block that an HMAC makes of its key, `K0` in the standard: the key, or its digest where it is longer
/// than a block of 64 bytes, with zero bytes behind it. Two keys that are made into the same block give the same HMACs.
pub fn key_block(key: &[u8]) -> [u8; BLOCK]
    ensures { result ≡ block_key key.now }
{
    let mut block = [0; BLOCK];
    if key.len() > BLOCK {
        block[..32].copy_from_slice(&hash(key).bytes);
    } else {
        block[..key.len()].copy_from_slice(key);
    }
    block
}

// Each byte of a block combined with the pad's byte by exclusive or.
fn padded(block: &[u8; BLOCK], pad: u8) -> [u8; BLOCK]
    ensures { result ≡ map (λ byte. bit_xor byte pad) block.now }
{
    let mut padded = *block;
    for byte in &mut padded {
        *byte ^= pad;
    }
    padded
}
