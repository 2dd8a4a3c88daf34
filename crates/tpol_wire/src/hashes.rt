//! The hash of a reply.

ghost use Rattle.std.specs.Prelude.{◌≡◌, IfOk};
ghost use Rattle.tpol_wire.specs.Hashes as spec;

use crate::reply::Reply;
use crate::reply_writing::fields_of;
use std::alloc::Global;
use tpol_base::{Digest32, NoMemory};
use tpol_hash::Hasher;

/// The rpHash of a reply to the command of this code, where it succeeds: the hash of the response code, the
/// command code and the reply's fields (TPM 2.0 Part 1, "rpHash"). It fails only where memory ran out.
#[tactic(auto, unfolding(crate::specs::Hashes::rp_hash))]
pub fn rp_hash(alloc: Global, code: u32, reply: &Reply) -> Result<Digest32, NoMemory>
    ensures hash { IfOk result (λ hash. hash ≡ spec.rp_hash code reply.now) }
{
    let fields = fields_of(alloc, reply)?;
    let mut hasher = Hasher::new();
    hasher.put(&0u32.to_be_bytes());
    hasher.put(&code.to_be_bytes());
    hasher.put(fields.as_slice());
    Ok(hasher.done())
}
