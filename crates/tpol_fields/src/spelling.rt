//! Writers of single fields, at the end of bytes (TPM 2.0 Part 2). They fail only where memory ran out.
#![tactic(auto, unfolding(crate::specs::Kinds::spell))]

ghost use Rattle.std.specs.Prelude.{◌++◌, length};
ghost use Rattle.std.specs.Int.{w16, w32, w64, to_be_bytes};
ghost use Rattle.std.specs.List.{flat_map};
ghost use Rattle.tpol_fields.specs.Kinds.{spell, sized as sized_bytes, ticket_bytes, timeout_bytes, Signed, Truth, Operation, Optional, Named, Ticketed, Digests};
ghost use Rattle.tpol_fields.specs.FieldKinds.{byte as byte_kind, sized_digest as sized_digest_kind, one_digest as one_digest_kind, selection as selection_kind, signature as signature_kind, timeout as timeout_kind, context as context_kind};
ghost use Rattle.tpol_fields.specs.Spellings.{Appends};

use crate::ticket::Ticket;
use byteorder::{BigEndian, ByteOrder};
use tpol_base::constants::{TPM_ALG_HMAC, TPM_ALG_SHA256};
use tpol_base::handle::TPM_RH_NULL;
use tpol_base::{Blob, Compare, Digest32, Digests, Name, NoMemory, pcr, yes_no};

/// A number of two bytes.
pub fn number16(out: &mut Blob, number: u16) -> Result<(), NoMemory>
    ensures { Appends result out.old out.new (to_be_bytes w16 number) }
{
    let mut bytes = [0; 2];
    BigEndian::write_u16(&mut bytes, number);
    out.extend_from_slice(&bytes)
}

/// A number of four bytes.
pub fn number32(out: &mut Blob, number: u32) -> Result<(), NoMemory>
    ensures { Appends result out.old out.new (to_be_bytes w32 number) }
{
    let mut bytes = [0; 4];
    BigEndian::write_u32(&mut bytes, number);
    out.extend_from_slice(&bytes)
}

/// A number of eight bytes.
fn number64(out: &mut Blob, number: u64) -> Result<(), NoMemory>
    ensures { Appends result out.old out.new (to_be_bytes w64 number) }
{
    let mut bytes = [0; 8];
    BigEndian::write_u64(&mut bytes, number);
    out.extend_from_slice(&bytes)
}

/// A length of two bytes: of a longer one the last two.
fn length16(out: &mut Blob, length: usize) -> Result<(), NoMemory>
    ensures { Appends result out.old out.new (to_be_bytes w16 length) }
{
    number16(out, (length % 0x1_0000) as u16)
}

/// A length of four bytes: of a longer one the last four.
pub fn length32(out: &mut Blob, length: usize) -> Result<(), NoMemory>
    ensures { Appends result out.old out.new (to_be_bytes w32 length) }
{
    number32(out, (length % 0x1_0000_0000) as u32)
}

/// A 2B.
pub fn sized(out: &mut Blob, bytes: &[u8]) -> Result<(), NoMemory>
    ensures { Appends result out.old out.new (sized_bytes bytes.now) }
{
    length16(out, bytes.len())?;
    out.extend_from_slice(bytes)
}

/// A byte.
pub fn byte(out: &mut Blob, byte: u8) -> Result<(), NoMemory>
    ensures { Appends result out.old out.new (spell byte_kind byte) }
{
    out.push(byte)
}

/// A signed number.
pub fn signed(out: &mut Blob, number: i32) -> Result<(), NoMemory>
    ensures { Appends result out.old out.new (spell Signed number) }
{
    number32(out, number.cast_unsigned())
}

/// The byte of a truth value.
pub fn truth(out: &mut Blob, truth: bool) -> Result<(), NoMemory>
    ensures { Appends result out.old out.new (spell Truth truth) }
{
    out.push(yes_no(truth))
}

/// The number of a comparison.
pub fn operation(out: &mut Blob, operation: Compare) -> Result<(), NoMemory>
    ensures { Appends result out.old out.new (spell Operation operation) }
{
    number16(out, operation.number())
}

/// A 2B of a digest's 32 bytes.
pub fn sized_digest(out: &mut Blob, digest: &Digest32) -> Result<(), NoMemory>
    ensures { Appends result out.old out.new (spell sized_digest_kind digest.now) }
{
    number16(out, 32)?;
    out.extend_from_slice(&digest.bytes)
}

/// A 2B of a digest's bytes, or of none.
pub fn optional(out: &mut Blob, given: &Option<Digest32>) -> Result<(), NoMemory>
    ensures { Appends result out.old out.new (spell Optional given.now) }
{
    match given {
        None => number16(out, 0),
        Some(digest) => sized(out, &digest.bytes),
    }
}

/// A 2B of a Name's bytes.
pub fn name(out: &mut Blob, name: &Name) -> Result<(), NoMemory>
    ensures { Appends result out.old out.new (spell Named name.now) }
{
    sized(out, name.bytes().as_slice())
}

/// A ticket.
pub fn ticket(out: &mut Blob, ticket: &Ticket) -> Result<(), NoMemory>
    ensures { Appends result out.old out.new (spell Ticketed ticket.now) }
{
    number16(out, ticket.tag)?;
    number32(out, ticket.hierarchy)?;
    sized(out, ticket.digest.as_slice())
}

/// A deadline.
pub fn timeout(out: &mut Blob, deadline: u64) -> Result<(), NoMemory>
    ensures { Appends result out.old out.new (spell timeout_kind deadline) }
{
    number16(out, 8)?;
    number64(out, deadline)
}

/// A deadline or none, and the ticket that goes with it.
pub fn timed_ticket(out: &mut Blob, deadline: Option<u64>, given: &Ticket) -> Result<(), NoMemory>
    ensures { Appends result out.old out.new (sized_bytes (timeout_bytes deadline)
        ++ ticket_bytes given.now) }
{
    match deadline {
        None => number16(out, 0)?,
        Some(deadline) => timeout(out, deadline)?,
    }
    ticket(out, given)
}

/// The context of a session.
pub fn context(
    out: &mut Blob,
    sequence: u64,
    session: u32,
    digest: &Digest32,
) -> Result<(), NoMemory>
    ensures { Appends result out.old out.new
        (spell context_kind (sequence, (session, digest.now))) }
{
    number64(out, sequence)?;
    number32(out, session)?;
    number32(out, TPM_RH_NULL)?;
    sized_digest(out, digest)
}

/// One digest behind its count and its algorithm (TPML_DIGEST_VALUES).
pub fn digest_values(out: &mut Blob, digest: &Digest32) -> Result<(), NoMemory>
    ensures { Appends result out.old out.new (spell one_digest_kind digest.now) }
{
    number32(out, 1)?;
    number16(out, TPM_ALG_SHA256)?;
    out.extend_from_slice(&digest.bytes)
}

/// One selection of SHA-256 PCRs.
pub fn selection(out: &mut Blob, mask: u32) -> Result<(), NoMemory>
    ensures { Appends result out.old out.new (spell selection_kind mask) }
{
    out.extend_from_slice(&pcr::selection(mask))
}

/// An HMAC with SHA-256.
pub fn signature(out: &mut Blob, hmac: &Digest32) -> Result<(), NoMemory>
    ensures { Appends result out.old out.new (spell signature_kind hmac.now) }
{
    number16(out, TPM_ALG_HMAC)?;
    number16(out, TPM_ALG_SHA256)?;
    out.extend_from_slice(&hmac.bytes)
}

/// A count, and that many 2Bs of 32 bytes.
pub fn digests(out: &mut Blob, digests: &Digests) -> Result<(), NoMemory>
    ensures { Appends result out.old out.new (to_be_bytes w32 (length digests.now)
        ++ flat_map (λ digest. sized_bytes digest.bytes) digests.now) }
{
    length32(out, digests.len())?;
    for digest in digests.as_slice() {
        sized(out, &digest.bytes)?;
    }
    Ok(())
}
