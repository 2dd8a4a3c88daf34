// Values as text; `-` stands for no bytes and for no PCRs.

ghost use Rattle.std.specs.Prelude.{◌≡◌, IfOk};
ghost use Rattle.std.specs.String.{string_bytes};
ghost use Rattle.tpol_lines.specs.Hex.{bytes_text, code_text};
ghost use Rattle.tpol_moves.specs.Arguments.{digest_text, digests_text, name_text, operation_word, pcrs_text, yes_no_text};

use std::alloc::Global;
use tpol_base::{Compare, Digest32, Name, NoMemory, Text};

// The digits of a digest.
pub fn digest_text(alloc: Global, digest: &Digest32) -> Result<String, NoMemory>
    ensures { IfOk result (λ text. string_bytes text ≡ digest_text digest.now) }
{
    Ok(hex::encode(alloc, digest.bytes.as_slice())?)
}

// The digits of bytes, or a dash where there are none.
pub fn bytes_text(alloc: Global, bytes: &[u8]) -> Result<String, NoMemory>
    ensures { IfOk result (λ text. string_bytes text ≡ bytes_text bytes.now) }
{
    if bytes.is_empty() {
        Ok(String::from_str(alloc, "-")?)
    } else {
        Ok(hex::encode(alloc, bytes)?)
    }
}

// The digits of a Name, or a dash for the empty one.
pub fn name_text(alloc: Global, name: &Name) -> Result<String, NoMemory>
    ensures { IfOk result (λ text. string_bytes text ≡ name_text name.now) }
{
    bytes_text(alloc, name.bytes().as_slice())
}

// The eight digits of a command's code.
pub fn code_text(alloc: Global, code: u32) -> Result<String, NoMemory>
    ensures { IfOk result (λ text. string_bytes text ≡ code_text code) }
{
    Ok(hex::encode(alloc, code.to_be_bytes())?)
}

// The numbers of PCRs with `,` between, or a dash where there are none.
pub fn pcrs_text(alloc: Global, pcrs: &[u8]) -> Result<Text, NoMemory>
    ensures { IfOk result (λ text. text ≡ pcrs_text pcrs.now) }
{
    let Some((first, rest)) = pcrs.split_first() else {
        return Text::from_str(alloc, "-");
    };
    let mut text = Text::from_string(format!(in alloc; "{first}")?);
    for pcr in rest {
        text.push_str(format!(in alloc; ",{pcr}")?.as_str())?;
    }
    Ok(text)
}

// Digests with `,` between.
pub fn digests_text(alloc: Global, digests: &[Digest32]) -> Result<Text, NoMemory>
    ensures { IfOk result (λ text. text ≡ digests_text digests.now) }
{
    let Some((first, rest)) = digests.split_first() else {
        return Ok(Text::new(alloc));
    };
    let mut text = Text::from_string(digest_text(alloc, first)?);
    for digest in rest {
        text.push_str(",")?;
        text.push_str(digest_text(alloc, digest)?.as_str())?;
    }
    Ok(text)
}

// A truth value.
pub fn yes_no_text(value: bool) -> &'static str
    ensures { result.now ≡ yes_no_text value }
{
    if value { "yes" } else { "no" }
}

// A comparison, as tpm2-tools spell it.
pub fn operation_word(operation: Compare) -> &'static str
    ensures { result.now ≡ operation_word operation }
{
    match operation {
        Compare::Eq => "eq",
        Compare::Neq => "neq",
        Compare::SignedGt => "sgt",
        Compare::UnsignedGt => "ugt",
        Compare::SignedLt => "slt",
        Compare::UnsignedLt => "ult",
        Compare::SignedGe => "sge",
        Compare::UnsignedGe => "uge",
        Compare::SignedLe => "sle",
        Compare::UnsignedLe => "ule",
        Compare::BitSet => "bs",
        Compare::BitClear => "bc",
    }
}
