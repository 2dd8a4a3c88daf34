// Bytes in hexadecimal.

ghost use Rattle.std.specs.Prelude.{◌≡◌, ◌++◌, IfOk, OnOk, length};
ghost use Rattle.std.specs.String.{string_bytes};
ghost use Rattle.hex.specs.Hex.{encode_lower};
ghost use Rattle.tpol_lines.specs.Hex.{bytes_text, code_of_buffer, code_text};

use std::alloc::Global;
use tpol_base::NoMemory;

// Where the code of a command or of a reply stands, behind the tag and the size.
const CODE_START: usize = 6;

const CODE_END: usize = 10;

// The eight digits of a code.
pub fn code_text(alloc: Global, code: u32) -> Result<String, NoMemory>
    ensures { IfOk result (λ text. string_bytes text ≡ code_text code) }
{
    Ok(hex::encode(alloc, code.to_be_bytes())?)
}

// The same on the stack.
pub fn digits_of_code(code: u32) -> [u8; 8]
    ensures { result ≡ code_text code }
{
    digits_of(&code.to_be_bytes())
}

// The eight digits of the code of a command or of a reply, or dashes where it is too short to have one.
pub fn digits_of_buffer(buffer: &[u8]) -> [u8; 8]
    ensures { result ≡ code_of_buffer buffer.now }
{
    if buffer.len() < CODE_END {
        *b"--------"
    } else {
        digits_of(&buffer[CODE_START..CODE_END])
    }
}

// The digits of four bytes.
fn digits_of(bytes: &[u8]) -> [u8; 8]
    requires { length bytes.now ≡ 4 }
    ensures { result ≡ encode_lower bytes.now }
{
    let mut digits = [0; 8];
    hex::encode_to_slice(bytes, &mut digits).unwrap();
    digits
}

// Adds the digits of bytes to a line.
pub fn push_hexadecimal(line: &mut Vec<u8>, bytes: &[u8]) -> Result<(), NoMemory>
    ensures { OnOk result (line.new.items ≡ line.old.items ++ encode_lower bytes.now) }
{
    let start = line.len();
    let count = bytes.len().checked_mul(2).ok_or(NoMemory)?;
    let end = start.checked_add(count).ok_or(NoMemory)?;
    line.resize(end, 0)?;
    hex::encode_to_slice(bytes, &mut line[start..]).unwrap();
    Ok(())
}

// The digits of bytes, or a dash where there are none.
pub fn bytes_text(alloc: Global, bytes: &[u8]) -> Result<String, NoMemory>
    ensures { IfOk result (λ text. string_bytes text ≡ bytes_text bytes.now) }
{
    if bytes.is_empty() {
        Ok(String::from_str(alloc, "-")?)
    } else {
        Ok(hex::encode(alloc, bytes)?)
    }
}
