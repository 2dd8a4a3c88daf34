//! SHA-256 digests as values.

ghost use Rattle.std.specs.Prelude.{◌≡◌, length};

/// A SHA-256 digest: 32 bytes.
#[derive(Clone, Copy, PartialEq, Eq)]
pub struct Digest32 {
    /// The digest's bytes, the first byte first.
    pub bytes: [u8; 32],
    pub ghost whole: { length bytes ≡ 32 },
}

impl Digest32 {
    ghost use Rattle.tpol_base.specs.Digest.{digest_of_bytes, optional_bytes};

    /// 32 zero bytes: the digest that a policy and a session start from.
    pub const ZERO: Digest32 = Digest32 { bytes: [0; 32] };

    /// The digest that these 32 bytes are; nothing is hashed.
    pub fn from_slice(bytes: &[u8]) -> Digest32
        requires { length bytes.now ≡ 32 }
        ensures bytes { result.bytes ≡ bytes.now }
        ensures value { result ≡ digest_of_bytes bytes.now }
    {
        let mut digest = [0; 32];
        digest.copy_from_slice(bytes);
        Digest32 { bytes: digest }
    }

    /// The bytes of a digest that may be left out, as of a cpHashA: 32, or none.
    pub fn optional_bytes(digest: &Option<Digest32>) -> &[u8]
        ensures { result.now ≡ optional_bytes digest.now }
    {
        match digest {
            Some(digest) => &digest.bytes,
            None => &[],
        }
    }
}
