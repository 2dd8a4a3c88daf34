//! Members of objects.

ghost use Rattle.std.specs.Prelude.{OnOk};
ghost use Rattle.serde_json.specs.Data.{boolean, string};
ghost use Rattle.tpol_write.specs.Drafts.{Adds, member_tokens, Reads};
ghost use Rattle.tpol_write.specs.Objects.{hex_text, integer, natural};
ghost use Rattle.tpol_write.specs.Wishes.{name_value};

use crate::draft::Draft;
use std::alloc::Global;
use tpol_base::{Blob, Digest32, Name, NoMemory, Text};

/// Writes a member that is a word of the format.
pub fn put_word(draft: &mut Draft, name: &str, word: &str) -> Result<(), NoMemory>
    ensures { OnOk result (Adds draft.old draft.new (member_tokens (name.now, string word.now))) }
{
    draft.name(name)?;
    draft.text(word)
}

/// Writes a member that is a text.
pub fn put_text(draft: &mut Draft, name: &str, text: &Text) -> Result<(), NoMemory>
    ensures { OnOk result (Adds draft.old draft.new (member_tokens (name.now, string text.now))) }
{
    put_word(draft, name, text.as_str())
}

/// Writes a member that is the hexadecimal text of bytes.
pub fn put_bytes(draft: &mut Draft, alloc: Global, name: &str, bytes: &Blob) -> Result<(), NoMemory>
    ensures { OnOk result
        (Adds draft.old draft.new (member_tokens (name.now, hex_text bytes.now))) }
{
    draft.name(name)?;
    draft.hex(alloc, bytes.as_slice())
}

/// Writes a member that is the hexadecimal text of a digest.
pub fn put_digest(
    draft: &mut Draft,
    alloc: Global,
    name: &str,
    digest: &Digest32,
) -> Result<(), NoMemory>
    ensures { OnOk result
        (Adds draft.old draft.new (member_tokens (name.now, hex_text digest.now.bytes))) }
{
    draft.name(name)?;
    draft.hex(alloc, digest.bytes.as_slice())
}

/// Writes a member that is a Name.
pub fn put_name(draft: &mut Draft, alloc: Global, member: &str, name: &Name) -> Result<(), NoMemory>
    ensures { OnOk result
        (Adds draft.old draft.new (member_tokens (member.now, name_value name.now))) }
{
    draft.name(member)?;
    draft.hex(alloc, name.bytes().as_slice())
}

/// Writes a member that is a number.
pub fn put_number(draft: &mut Draft, name: &str, number: u32) -> Result<(), NoMemory>
    ensures tokens { OnOk result
        (Adds draft.old draft.new (member_tokens (name.now, natural number))) }
    ensures reads { OnOk result (Reads (natural number)) }
{
    draft.name(name)?;
    draft.natural(number)
}

/// Writes a member that is a number of 16 bits.
pub fn put_short(draft: &mut Draft, name: &str, number: u16) -> Result<(), NoMemory>
    ensures tokens { OnOk result
        (Adds draft.old draft.new (member_tokens (name.now, natural number))) }
    ensures reads { OnOk result (Reads (natural number)) }
{
    put_number(draft, name, u32::from(number))
}

/// Writes a member that is a number of 8 bits.
pub fn put_byte(draft: &mut Draft, name: &str, number: u8) -> Result<(), NoMemory>
    ensures tokens { OnOk result
        (Adds draft.old draft.new (member_tokens (name.now, natural number))) }
    ensures reads { OnOk result (Reads (natural number)) }
{
    put_number(draft, name, u32::from(number))
}

/// Writes a member that is a number with a sign.
pub fn put_signed(draft: &mut Draft, name: &str, number: i32) -> Result<(), NoMemory>
    ensures tokens { OnOk result
        (Adds draft.old draft.new (member_tokens (name.now, integer number))) }
    ensures reads { OnOk result (Reads (integer number)) }
{
    draft.name(name)?;
    draft.integer(number)
}

/// Writes a member that is a truth value.
pub fn put_truth(draft: &mut Draft, name: &str, truth: bool) -> Result<(), NoMemory>
    ensures { OnOk result (Adds draft.old draft.new (member_tokens (name.now, boolean truth))) }
{
    draft.name(name)?;
    draft.truth(truth)
}
