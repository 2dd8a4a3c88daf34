//! Authorizations as they are read and written (TPM 2.0 Part 2, TPMS_AUTH_COMMAND and TPMS_AUTH_RESPONSE).
#![tactic(auto, unfolding(crate::specs::Authorizations::tail_of, crate::specs::Authorizations::whole_area, crate::specs::Authorizations::sized_area, crate::specs::Authorizations::judged, crate::specs::Authorizations::area_at, tpol_fields::specs::Kinds::sized_at))]

ghost use Rattle.std.specs.Prelude.{◌==◌, ◌||◌, length, true};
ghost use Rattle.tpol_fields.specs.Answers.{Gives, Reads};
ghost use Rattle.tpol_wire.specs.Answers.{Finds, FindsFront, FindsSlice, Judges};
ghost use Rattle.tpol_wire.specs.Authorizations.{area_at, whole_area, area_with, authorization, judged, no_area, sized_area, spell_tail, tail_of};
ghost use Rattle.tpol_fields.specs.Kinds.{is_any_length, sized_at};
ghost use Rattle.tpol_fields.specs.Spellings.{Appends};

use crate::auth_area::AuthArea;
use std::alloc::Global;
use tpol_base::handle::TPM_RS_PW;
use tpol_base::response_code::{
    ATTRIBUTES, AUTH_CONTEXT, AUTH_MISSING, AUTHSIZE, NONCE, SIZE, VALUE, of_session,
};
use tpol_base::{Blob, Cursor, NoMemory};
use tpol_fields::fields::refused;
use tpol_fields::{HandleType, WireFault, spelling};

/// The end of an area, lent: all of it.
#[derive(Drop)]
pub(crate) struct Tail<'a> {
    pub(crate) nonce: &'a [u8],
    pub(crate) attributes: u8,
    pub(crate) hmac: &'a [u8],
}

/// A 2B of any length, lent.
fn any_buffer<'a>(cursor: &mut Cursor<'a>) -> Option<&'a [u8]>
    ensures { FindsSlice result (sized_at 0 is_any_length cursor.old) cursor.new }
{
    let length = cursor.u16()?;
    cursor.take(usize::from(length))
}

/// Exactly one nonce, attributes and hmac, with nothing behind.
pub(crate) fn read_tail<'a>(cursor: &mut Cursor<'a>) -> Option<Tail<'a>>
    ensures { Finds (λ tail. (tail.nonce.now, tail.attributes, tail.hmac.now)) result
        (tail_of cursor.old) }
{
    let nonce = any_buffer(cursor)?;
    let attributes = cursor.u8()?;
    let hmac = any_buffer(cursor)?;
    if cursor.left() != 0 {
        return None;
    }
    Some(Tail {
        nonce,
        attributes,
        hmac,
    })
}

/// Exactly one area, with nothing behind.
fn parts<'a>(bytes: &'a [u8]) -> Option<(u32, Tail<'a>)>
    ensures { Finds (λ found.
        area_with found.0 found.1.nonce.now found.1.attributes found.1.hmac.now) result
        (whole_area bytes.now) }
{
    let mut cursor = Cursor::new(bytes);
    let session = cursor.u32()?;
    let tail = read_tail(&mut cursor)?;
    Some((session, tail))
}

/// A size, and exactly one area of that size.
fn sized_parts<'a>(cursor: &mut Cursor<'a>) -> Option<(u32, Tail<'a>)>
    ensures { FindsFront (λ found.
        area_with found.0 found.1.nonce.now found.1.attributes found.1.hmac.now) result
        (sized_area cursor.old) cursor.new }
{
    let size = cursor.u32()?;
    let area = cursor.take(size as usize)?;
    parts(area)
}

/// The first rule that an area breaks, with the position of session 1: TPM_RC_SIZE for a nonce of more than 32 bytes
/// or an hmac of more than 64; TPM_RC_VALUE for a handle that is neither TPM_RS_PW nor one of a policy session;
/// TPM_RC_ATTRIBUTES for an attribute beside continueSession; TPM_RC_NONCE for a nonce with a password.
fn judge(session: u32, tail: &Tail) -> Result<(), WireFault>
    ensures { let area = area_with session tail.now.nonce.now tail.now.attributes tail.now.hmac.now
        in
        Judges result (judged area) area }
{
    if tail.nonce.len() > 32 || tail.hmac.len() > 64 {
        return Err(refused(SIZE + of_session(1)));
    }
    if session != TPM_RS_PW && !HandleType::PolicySession.has(session) {
        return Err(refused(VALUE + of_session(1)));
    }
    if tail.attributes > 1 {
        return Err(refused(ATTRIBUTES + of_session(1)));
    }
    if session == TPM_RS_PW && !tail.nonce.is_empty() {
        return Err(refused(NONCE + of_session(1)));
    }
    Ok(())
}

/// The authorization of a command that takes one; `tagged` says whether the tag announces it: else
/// TPM_RC_AUTH_MISSING. TPM_RC_AUTHSIZE comes where the bytes are not one area of the size that stands before it, and
/// then the code of the first rule that the area breaks.
pub(crate) fn read(alloc: Global, tagged: bool, cursor: &mut Cursor) -> Result<AuthArea, WireFault>
    ensures { Reads result (area_at tagged cursor.old) cursor.new }
{
    if !tagged {
        return Err(refused(AUTH_MISSING));
    }
    let Some((session, tail)) = sized_parts(cursor) else {
        return Err(refused(AUTHSIZE));
    };
    judge(session, &tail)?;
    Ok(AuthArea {
        session,
        nonce: Blob::from_slice(alloc, tail.nonce)?,
        attributes: tail.attributes,
        hmac: Blob::from_slice(alloc, tail.hmac)?,
    })
}

/// A command that takes no authorization: the tag announces none, else TPM_RC_AUTH_CONTEXT.
pub(crate) fn none(tagged: bool) -> Result<(), WireFault>
    ensures { Gives result (no_area tagged) }
{
    if tagged {
        return Err(refused(AUTH_CONTEXT));
    }
    Ok(())
}

/// The nonce, the attributes and the hmac of an authorization.
pub(crate) fn write_tail(
    out: &mut Blob,
    nonce: &Blob,
    attributes: u8,
    hmac: &Blob,
) -> Result<(), NoMemory>
    ensures { Appends result out.old out.new (spell_tail nonce.now attributes hmac.now) }
{
    spelling::sized(out, nonce.as_slice())?;
    out.push(attributes)?;
    spelling::sized(out, hmac.as_slice())
}

/// The size of an authorization, and the authorization.
pub(crate) fn write_area(alloc: Global, out: &mut Blob, area: &AuthArea) -> Result<(), NoMemory>
    ensures { Appends result out.old out.new (authorization true area.now) }
{
    let mut bytes = Blob::new(alloc);
    spelling::number32(&mut bytes, area.session)?;
    write_tail(&mut bytes, &area.nonce, area.attributes, &area.hmac)?;
    spelling::length32(out, bytes.len())?;
    out.extend_from_slice(bytes.as_slice())
}
