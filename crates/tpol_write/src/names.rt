//! The member of a command's code.

ghost use Rattle.std.specs.Prelude.{None, codes, OnOk};
ghost use Rattle.serde_json.specs.Data.{string};
ghost use Rattle.tpol_write.specs.Drafts.{Adds, member_tokens};
ghost use Rattle.tpol_write.specs.Names.{code_text, name_or_digits};

use crate::draft::Draft;
use crate::members::{put_text, put_word};
use std::alloc::Global;
use tpol_base::{NoMemory, Text, command_name};

/// Writes the member of a command's code: its name (TPM 2.0 Part 2, TPM_CC), else `0x` and eight digits.
pub fn put_code(draft: &mut Draft, alloc: Global, code: u32) -> Result<(), NoMemory>
    ensures { OnOk result (Adds draft.old draft.new
        (member_tokens (codes "code", string (code_text code)))) }
{
    match command_name(code) {
        Some(name) => put_word(draft, "code", name),
        None => put_digits(draft, alloc, code),
    }
}

// Writes the member of a code that has no name.
fn put_digits(draft: &mut Draft, alloc: Global, code: u32) -> Result<(), NoMemory>
    ensures { OnOk result (Adds draft.old draft.new
        (member_tokens (codes "code", string (name_or_digits None code)))) }
{
    let mut text = Text::from_str(alloc, "0x")?;
    text.push_str(hex::encode(alloc, code.to_be_bytes().as_slice())?.as_str())?;
    put_text(draft, "code", &text)
}
