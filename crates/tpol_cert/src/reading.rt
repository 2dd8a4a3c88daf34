// Certificates out of bytes.

ghost use Rattle.std.specs.Prelude.{◌≡◌};
ghost use Rattle.tpol_cert.specs.Reading as reading;
ghost use Rattle.tpol_cert.specs.Reading.{Gives, GivesWhole, Reads};

use crate::{CertFault, Certificate, Choice, Choices};
use std::alloc::Global;
use tpol_base::{Cursor, Digest32, Digests};

// The certificate that all of these bytes are.
#[tactic(auto, unfolding(crate::specs::Reading::certificate_in))]
pub fn read_certificate(alloc: Global, bytes: &[u8]) -> Result<Certificate, CertFault>
    ensures read { GivesWhole result (reading.certificate_in bytes.now) }
{
    let mut cursor = Cursor::new(bytes);
    let Some(magic) = cursor.take(4) else {
        return Err(CertFault::Malformed);
    };
    if magic != b"FPC1".as_slice() {
        return Err(CertFault::Malformed);
    }
    let steps = read_choices(alloc, &mut cursor)?;
    let digests = read_digests(alloc, &mut cursor)?;
    if cursor.left() > 0 {
        return Err(CertFault::Malformed);
    }
    Ok(Certificate { steps, digests })
}

// Choices, behind their number.
#[tactic(auto, unfolding(crate::specs::Reading::list_in))]
fn read_choices(alloc: Global, cursor: &mut Cursor) -> Result<Choices, CertFault>
    ensures read { Gives result cursor.new (reading.list_in reading.choice_in cursor.old) }
{
    let Some(count) = cursor.u16() else {
        return Err(CertFault::Malformed);
    };
    let mut choices = Choices::new(alloc);
    for _ in 0..count {
        let Some(choice) = read_choice(cursor) else {
            return Err(CertFault::Malformed);
        };
        choices.push(choice)?;
    }
    Ok(choices)
}

// One choice.
#[tactic(auto, unfolding(crate::specs::Reading::choice_in))]
fn read_choice(cursor: &mut Cursor) -> Option<Choice>
    ensures read { Reads result cursor.new (reading.choice_in cursor.old) }
{
    match cursor.u8()? {
        1 => Some(Choice::Branch(cursor.u32()?)),
        2 => Some(Choice::Document(cursor.u32()?)),
        3 => Some(Choice::Outside),
        _ => None,
    }
}

// Digests, behind their number.
#[tactic(auto, unfolding(crate::specs::Reading::list_in))]
fn read_digests(alloc: Global, cursor: &mut Cursor) -> Result<Digests, CertFault>
    ensures read { Gives result cursor.new (reading.list_in reading.digest_in cursor.old) }
{
    let Some(count) = cursor.u16() else {
        return Err(CertFault::Malformed);
    };
    let mut digests = Digests::new(alloc);
    for _ in 0..count {
        let Some(digest) = read_digest(cursor) else {
            return Err(CertFault::Malformed);
        };
        digests.push(digest)?;
    }
    Ok(digests)
}

// One digest.
fn read_digest(cursor: &mut Cursor) -> Option<Digest32>
    ensures read { Reads result cursor.new (reading.digest_in cursor.old) }
{
    let bytes = cursor.take(32)?;
    Some(Digest32::from_slice(bytes))
}
