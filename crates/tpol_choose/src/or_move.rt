ghost use Rattle.std.specs.Prelude.{◌≡◌};
ghost use Rattle.tpol_digest.specs.Digest as spec;

use tpol_base::Digest32;
use tpol_digest::or_digest;

// PolicyOR with the digests of its branches, and the digest that it leads to, which is made once.
#[derive(Clone, Copy)]
pub struct OrMove<'a> {
    pub digests: &'a [Digest32],
    pub after: Digest32,
    pub ghost known: { after ≡ spec.or_digest digests.now },
}

impl<'a> OrMove<'a> {
    pub fn new(digests: &'a [Digest32]) -> OrMove<'a>
        ensures { result.digests.now ≡ digests.now }
    {
        OrMove {
            digests,
            after: or_digest(digests),
        }
    }

    // The same where the digest that it leads to is known.
    pub fn with_after(digests: &'a [Digest32], after: Digest32) -> OrMove<'a>
        requires known { after ≡ spec.or_digest digests.now }
        ensures { result.digests.now ≡ digests.now }
    {
        OrMove { digests, after }
    }
}
