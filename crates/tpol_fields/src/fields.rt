//! Readers of single fields from the front of what a cursor has left. Each refuses with the code of the
//! field and its position (TPM 2.0 Part 2, "Response Code Formats").
//!
//! `n` is the position: the number of the handle for `handle`, and of the parameter for all others, from 1. The parts
//! of a field are read in order, and the first that is wrong gives the code: TPM_RC_INSUFFICIENT where the bytes end
//! too early; TPM_RC_SIZE for the length of a 2B or the count of a list that the field may not have, and for the bytes
//! of no Name; TPM_RC_HASH for an algorithm that is not taken for a hash; TPM_RC_VALUE for any other number out of its
//! range, as `size` and the size of a selection's mask, and for a ticket that does not go with its deadline. Numbers
//! are big-endian. Bytes behind a field are left to the next one. A reader that
//! copies answers `NoMemory` too, where memory ran out; one that answers `Rc` copies nothing.
#![tactic(auto, unfolding(crate::specs::Kinds::read, crate::specs::Kinds::sized_at, crate::specs::Kinds::listed_digest, crate::specs::Kinds::ticket_at, crate::specs::Kinds::timeout_at))]

ghost use Rattle.std.specs.Prelude.{◌≡◌, ◌+◌, ◌*◌, ◌<◌, ◌==◌, nat_le, length, IfOk};
ghost use Rattle.std.specs.Int.{w8, w16, w32, w64};
ghost use Rattle.tpol_base.specs.ResponseCode.{of_handle, of_parameter};
ghost use Rattle.tpol_fields.specs.Answers.{LendsInPlace, Reads, ReadsInPlace};
ghost use Rattle.tpol_fields.specs.Kinds.{read, number_at, bytes_at, sized_at, digests_at, ticket_at, timeout_at, goes_with, is_any_length, Signed, Truth, Operation, Digest, Sized, Optional, Named, Ticketed, TimedTicket, Digests, Mask, listed_digest};
ghost use Rattle.tpol_fields.specs.FieldKinds.{handle as handle_type, byte as byte_kind, short as short_kind, long as long_kind, read_size as size_kind, hash as hash_kind, fixed as fixed_kind, fixed_byte as fixed_byte_kind, sized_digest as sized_digest_kind, empty as empty_kind, timeout as timeout_kind, context as context_kind, one_digest as one_digest_kind, selection as selection_kind, signature as signature_kind};

use crate::fault::WireFault;
use crate::handle_type::HandleType;
use crate::ticket::Ticket;
use std::alloc::Global;
use tpol_base::constants::{TPM_ALG_HMAC, TPM_ALG_NULL, TPM_ALG_SHA256};
use tpol_base::handle::{TPM_RH_NULL, TPM_RH_OWNER};
use tpol_base::response_code::{self, HASH, INSUFFICIENT, SIZE, VALUE};
use tpol_base::{Blob, Compare, Cursor, Digest32, Digests, Name, Rc};

/// A refusal with this code.
pub fn refused(code: u32) -> WireFault
    ensures { result ≡ WireFault.Refused (record { code = code }) }
{
    WireFault::Refused(Rc { code })
}

/// The refusal of handle `n`.
fn refused_handle(n: u8, code: u32) -> Rc
    requires { code < 0x100 }
    ensures { result.code ≡ code + of_handle n }
{
    Rc {
        code: code + response_code::of_handle(n),
    }
}

/// The refusal of parameter `n`.
fn refused_parameter(n: u8, code: u32) -> Rc
    requires { code < 0x100 }
    ensures { result.code ≡ code + of_parameter n }
{
    Rc {
        code: code + response_code::of_parameter(n),
    }
}

/// Any byte.
pub fn number8(cursor: &mut Cursor, n: u8) -> Result<u8, Rc>
    ensures number { ReadsInPlace result (number_at (of_parameter n) w8 cursor.old) cursor.new }
    ensures field { ReadsInPlace result (read (of_parameter n) byte_kind cursor.old) cursor.new }
{
    match cursor.u8() {
        Some(number) => Ok(number),
        None => Err(refused_parameter(n, INSUFFICIENT)),
    }
}

/// Any number of two bytes.
pub fn number16(cursor: &mut Cursor, n: u8) -> Result<u16, Rc>
    ensures number { ReadsInPlace result (number_at (of_parameter n) w16 cursor.old) cursor.new }
    ensures field { ReadsInPlace result (read (of_parameter n) short_kind cursor.old) cursor.new }
{
    match cursor.u16() {
        Some(number) => Ok(number),
        None => Err(refused_parameter(n, INSUFFICIENT)),
    }
}

/// Any number of four bytes.
pub fn number32(cursor: &mut Cursor, n: u8) -> Result<u32, Rc>
    ensures number { ReadsInPlace result (number_at (of_parameter n) w32 cursor.old) cursor.new }
    ensures field { ReadsInPlace result (read (of_parameter n) long_kind cursor.old) cursor.new }
{
    match cursor.u32() {
        Some(number) => Ok(number),
        None => Err(refused_parameter(n, INSUFFICIENT)),
    }
}

/// Any number of eight bytes.
fn number64(cursor: &mut Cursor, n: u8) -> Result<u64, Rc>
    ensures { ReadsInPlace result (number_at (of_parameter n) w64 cursor.old) cursor.new }
{
    match cursor.u64() {
        Some(number) => Ok(number),
        None => Err(refused_parameter(n, INSUFFICIENT)),
    }
}

/// So many bytes, lent.
pub fn bytes<'a>(cursor: &mut Cursor<'a>, n: u8, count: usize) -> Result<&'a [u8], Rc>
    ensures read { LendsInPlace result (bytes_at (of_parameter n) count cursor.old) cursor.new }
    ensures length { IfOk result (λ taken. length taken.now ≡ count) }
{
    match cursor.take(count) {
        Some(bytes) => Ok(bytes),
        None => Err(refused_parameter(n, INSUFFICIENT)),
    }
}

/// A 2B of any length, lent.
fn any_buffer<'a>(cursor: &mut Cursor<'a>, n: u8) -> Result<&'a [u8], Rc>
    ensures { LendsInPlace result (sized_at (of_parameter n) is_any_length cursor.old) cursor.new }
{
    let length = number16(cursor, n)?;
    bytes(cursor, n, usize::from(length))
}

/// A 2B of at most `most` bytes, lent.
fn bounded_buffer<'a>(cursor: &mut Cursor<'a>, n: u8, most: u16) -> Result<&'a [u8], Rc>
    ensures { LendsInPlace result
        (sized_at (of_parameter n) (λ k. nat_le k most) cursor.old) cursor.new }
{
    let length = number16(cursor, n)?;
    if length > most {
        return Err(refused_parameter(n, SIZE));
    }
    bytes(cursor, n, usize::from(length))
}

/// Handle `n` of a command, which is to be of this type.
pub fn handle(cursor: &mut Cursor, n: u8, named: HandleType) -> Result<u32, Rc>
    ensures { ReadsInPlace result (read (of_handle n) (handle_type named) cursor.old) cursor.new }
{
    let Some(handle) = cursor.u32() else {
        return Err(refused_handle(n, INSUFFICIENT));
    };
    if !named.has(handle) {
        return Err(refused_handle(n, VALUE));
    }
    Ok(handle)
}

/// A handle of this type among the parameters.
pub fn handle_parameter(cursor: &mut Cursor, n: u8, named: HandleType) -> Result<u32, Rc>
    ensures { ReadsInPlace result
        (read (of_parameter n) (handle_type named) cursor.old) cursor.new }
{
    let handle = number32(cursor, n)?;
    if !named.has(handle) {
        return Err(refused_parameter(n, VALUE));
    }
    Ok(handle)
}

/// A size of at most 1,024.
pub fn size(cursor: &mut Cursor, n: u8) -> Result<u16, Rc>
    ensures { ReadsInPlace result (read (of_parameter n) size_kind cursor.old) cursor.new }
{
    let size = number16(cursor, n)?;
    if size > 1024 {
        return Err(refused_parameter(n, VALUE));
    }
    Ok(size)
}

/// The algorithm SHA-256 or the null algorithm.
pub fn hash(cursor: &mut Cursor, n: u8) -> Result<u16, Rc>
    ensures { ReadsInPlace result (read (of_parameter n) hash_kind cursor.old) cursor.new }
{
    let hash = number16(cursor, n)?;
    if hash != TPM_ALG_SHA256 && hash != TPM_ALG_NULL {
        return Err(refused_parameter(n, HASH));
    }
    Ok(hash)
}

/// A signed number of four bytes.
pub fn signed(cursor: &mut Cursor, n: u8) -> Result<i32, Rc>
    ensures { ReadsInPlace result (read (of_parameter n) Signed cursor.old) cursor.new }
{
    let number = number32(cursor, n)?;
    Ok(number.cast_signed())
}

/// The byte 0x00 or 0x01 (TPMI_YES_NO).
pub fn truth(cursor: &mut Cursor, n: u8) -> Result<bool, Rc>
    ensures { ReadsInPlace result (read (of_parameter n) Truth cursor.old) cursor.new }
{
    let byte = number8(cursor, n)?;
    if byte > 1 {
        return Err(refused_parameter(n, VALUE));
    }
    Ok(byte == 1)
}

/// The number of a comparison.
pub fn operation(cursor: &mut Cursor, n: u8) -> Result<Compare, Rc>
    ensures { ReadsInPlace result (read (of_parameter n) Operation cursor.old) cursor.new }
{
    let number = number16(cursor, n)?;
    match Compare::from_number(number) {
        Some(operation) => Ok(operation),
        None => Err(refused_parameter(n, VALUE)),
    }
}

/// A number of two bytes that is fixed; another is refused with `code`.
pub fn fixed(cursor: &mut Cursor, n: u8, value: u16, code: u32) -> Result<(), Rc>
    requires { code < 0x100 }
    ensures { ReadsInPlace result
        (read (of_parameter n) (fixed_kind value code) cursor.old) cursor.new }
{
    if number16(cursor, n)? != value {
        return Err(refused_parameter(n, code));
    }
    Ok(())
}

/// A byte that is fixed; another is refused with `code`.
pub fn fixed_byte(cursor: &mut Cursor, n: u8, value: u8, code: u32) -> Result<(), Rc>
    requires { code < 0x100 }
    ensures { ReadsInPlace result
        (read (of_parameter n) (fixed_byte_kind value code) cursor.old) cursor.new }
{
    if number8(cursor, n)? != value {
        return Err(refused_parameter(n, code));
    }
    Ok(())
}

/// A 2B of no bytes.
pub fn empty(cursor: &mut Cursor, n: u8) -> Result<(), Rc>
    ensures { ReadsInPlace result (read (of_parameter n) empty_kind cursor.old) cursor.new }
{
    fixed(cursor, n, 0, SIZE)
}

/// 32 bytes.
fn digest(cursor: &mut Cursor, n: u8) -> Result<Digest32, Rc>
    ensures { ReadsInPlace result (read (of_parameter n) Digest cursor.old) cursor.new }
{
    let digest = bytes(cursor, n, 32)?;
    Ok(Digest32::from_slice(digest))
}

/// A 2B of 32 bytes.
pub fn sized_digest(cursor: &mut Cursor, n: u8) -> Result<Digest32, Rc>
    ensures field { ReadsInPlace result
        (read (of_parameter n) sized_digest_kind cursor.old) cursor.new }
    ensures listed { ReadsInPlace result (listed_digest (of_parameter n) cursor.old) cursor.new }
{
    fixed(cursor, n, 32, SIZE)?;
    digest(cursor, n)
}

/// A 2B of 0 or 32 bytes.
pub fn optional(cursor: &mut Cursor, n: u8) -> Result<Option<Digest32>, Rc>
    ensures { ReadsInPlace result (read (of_parameter n) Optional cursor.old) cursor.new }
{
    let length = number16(cursor, n)?;
    if length != 0 && length != 32 {
        return Err(refused_parameter(n, SIZE));
    }
    let given = bytes(cursor, n, usize::from(length))?;
    if given.is_empty() {
        return Ok(None);
    }
    Ok(Some(Digest32::from_slice(given)))
}

/// A 2B of at most `most` bytes, copied.
pub fn copied_buffer(
    alloc: Global,
    cursor: &mut Cursor,
    n: u8,
    most: u16,
) -> Result<Blob, WireFault>
    ensures { Reads result (read (of_parameter n) (Sized most) cursor.old) cursor.new }
{
    let bytes = bounded_buffer(cursor, n, most)?;
    Ok(Blob::from_slice(alloc, bytes)?)
}

/// A 2B of the bytes of a Name.
pub fn name(cursor: &mut Cursor, n: u8) -> Result<Name, Rc>
    ensures { ReadsInPlace result (read (of_parameter n) Named cursor.old) cursor.new }
{
    let bytes = any_buffer(cursor, n)?;
    match Name::from_bytes(bytes) {
        Some(name) => Ok(name),
        None => Err(refused_parameter(n, SIZE)),
    }
}

/// One digest of SHA-256 behind its count and its algorithm (TPML_DIGEST_VALUES).
pub fn digest_values(cursor: &mut Cursor, n: u8) -> Result<Digest32, Rc>
    ensures { ReadsInPlace result (read (of_parameter n) one_digest_kind cursor.old) cursor.new }
{
    if number32(cursor, n)? != 1 {
        return Err(refused_parameter(n, SIZE));
    }
    fixed(cursor, n, TPM_ALG_SHA256, HASH)?;
    digest(cursor, n)
}

/// One selection of SHA-256 PCRs with three bytes of mask (TPML_PCR_SELECTION).
pub fn selection(cursor: &mut Cursor, n: u8) -> Result<u32, Rc>
    ensures { ReadsInPlace result (read (of_parameter n) selection_kind cursor.old) cursor.new }
{
    if number32(cursor, n)? != 1 {
        return Err(refused_parameter(n, SIZE));
    }
    fixed(cursor, n, TPM_ALG_SHA256, HASH)?;
    fixed_byte(cursor, n, 3, VALUE)?;
    mask(cursor, n)
}

/// Three bytes with bit n mod 8 of byte n / 8 for PCR n.
fn mask(cursor: &mut Cursor, n: u8) -> Result<u32, Rc>
    ensures { ReadsInPlace result (read (of_parameter n) Mask cursor.old) cursor.new }
{
    let mask = bytes(cursor, n, 3)?;
    Ok(u32::from(mask[0]) + 256 * u32::from(mask[1]) + 65536 * u32::from(mask[2]))
}

/// An HMAC with SHA-256 (TPMT_SIGNATURE).
pub fn signature(cursor: &mut Cursor, n: u8) -> Result<Digest32, Rc>
    ensures { ReadsInPlace result (read (of_parameter n) signature_kind cursor.old) cursor.new }
{
    fixed(cursor, n, TPM_ALG_HMAC, VALUE)?;
    fixed(cursor, n, TPM_ALG_SHA256, HASH)?;
    digest(cursor, n)
}

/// A ticket: tag, hierarchy and a 2B of at most 64 bytes (TPMT_TK_VERIFIED, TPMT_TK_AUTH).
pub fn ticket(alloc: Global, cursor: &mut Cursor, n: u8) -> Result<Ticket, WireFault>
    ensures field { Reads result (read (of_parameter n) Ticketed cursor.old) cursor.new }
    ensures ticket { Reads result (ticket_at (of_parameter n) cursor.old) cursor.new }
{
    let tag = number16(cursor, n)?;
    let hierarchy = number32(cursor, n)?;
    let digest = bounded_buffer(cursor, n, 64)?;
    Ok(Ticket {
        tag,
        hierarchy,
        digest: Blob::from_slice(alloc, digest)?,
    })
}

/// A count from `least` to `most`, and that many 2Bs of 32 bytes.
pub fn digests(
    alloc: Global,
    cursor: &mut Cursor,
    n: u8,
    least: u32,
    most: u32,
) -> Result<Digests, WireFault>
    ensures { Reads result (read (of_parameter n) (Digests least most) cursor.old) cursor.new }
{
    let count = number32(cursor, n)?;
    if count < least || count > most {
        return Err(WireFault::Refused(refused_parameter(n, SIZE)));
    }
    counted_digests(alloc, cursor, n, count)
}

/// That many 2Bs of 32 bytes.
fn counted_digests(
    alloc: Global,
    cursor: &mut Cursor,
    n: u8,
    count: u32,
) -> Result<Digests, WireFault>
    ensures { Reads result (digests_at (of_parameter n) count cursor.old) cursor.new }
{
    let mut digests = Digests::new(alloc);
    for _ in 0..count {
        let digest = sized_digest(cursor, n)?;
        digests.push(digest)?;
    }
    Ok(digests)
}

/// A deadline: a 2B of 8 bytes.
pub fn timeout(cursor: &mut Cursor, n: u8) -> Result<u64, Rc>
    ensures { ReadsInPlace result (read (of_parameter n) timeout_kind cursor.old) cursor.new }
{
    fixed(cursor, n, 8, SIZE)?;
    number64(cursor, n)
}

/// A deadline or none: a 2B of 0 or 8 bytes.
fn optional_timeout(cursor: &mut Cursor, n: u8) -> Result<Option<u64>, Rc>
    ensures { ReadsInPlace result (timeout_at (of_parameter n) cursor.old) cursor.new }
{
    match number16(cursor, n)? {
        0 => Ok(None),
        8 => Ok(Some(number64(cursor, n)?)),
        _ => Err(refused_parameter(n, SIZE)),
    }
}

/// Whether a ticket is one of the owner hierarchy with 32 bytes where there is a deadline, and one of the
/// null hierarchy without bytes where there is none.
fn goes_with(timeout: Option<u64>, ticket: &Ticket) -> bool
    ensures { result ≡ goes_with timeout ticket.now }
{
    match timeout {
        None => ticket.hierarchy == TPM_RH_NULL && ticket.digest.is_empty(),
        Some(_) => ticket.hierarchy == TPM_RH_OWNER && ticket.digest.len() == 32,
    }
}

/// A deadline or none, and the ticket of this tag that goes with it (TPM2B_TIMEOUT and TPMT_TK_AUTH).
pub fn timed_ticket(
    alloc: Global,
    cursor: &mut Cursor,
    n: u8,
    tag: u16,
) -> Result<(Option<u64>, Ticket), WireFault>
    ensures { Reads result (read (of_parameter n) (TimedTicket tag) cursor.old) cursor.new }
{
    let timeout = optional_timeout(cursor, n)?;
    let ticket = ticket(alloc, cursor, n)?;
    if ticket.tag != tag || !goes_with(timeout, &ticket) {
        return Err(WireFault::Refused(refused_parameter(n, VALUE)));
    }
    Ok((timeout, ticket))
}

/// The context of a session: its sequence, its handle, the null hierarchy and a 2B of 32 bytes
/// (TPMS_CONTEXT).
pub fn context(cursor: &mut Cursor, n: u8) -> Result<(u64, (u32, Digest32)), Rc>
    ensures { ReadsInPlace result (read (of_parameter n) context_kind cursor.old) cursor.new }
{
    let sequence = number64(cursor, n)?;
    let session = handle_parameter(cursor, n, HandleType::PolicySession)?;
    if number32(cursor, n)? != TPM_RH_NULL {
        return Err(refused_parameter(n, VALUE));
    }
    let digest = sized_digest(cursor, n)?;
    Ok((sequence, (session, digest)))
}
