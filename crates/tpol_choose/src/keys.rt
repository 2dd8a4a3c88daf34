// HMAC keys, judged without an HMAC.

ghost use Rattle.std.specs.Prelude.{◌≡◌};
ghost use Rattle.tpol_choose.specs.Keys as spec;

use tpol_hash::key_block;

// Whether two keys have the same block, so that they give the same HMACs.
#[tactic(auto, using(crate::proofs::SameKeys::same_key))]
pub fn is_same_block(a: &[u8], b: &[u8]) -> bool
    ensures { result ≡ spec.is_same_block a.now b.now }
{
    if a == b {
        return true;
    }
    key_block(a) == key_block(b)
}
