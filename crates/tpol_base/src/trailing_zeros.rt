//! Zero bytes at the end of authorization values.

ghost use Rattle.std.specs.Prelude.{◌≡◌};
ghost use Rattle.tpol_base.specs.TrailingZeros.{without_trailing_zeros};

/// The bytes without the zero bytes at their end (TPM 2.0 Part 1, "Authorization Values and Trailing Zeros").
pub fn without_trailing_zeros(bytes: &[u8]) -> &[u8]
    ensures { result.now ≡ without_trailing_zeros bytes.now }
{
    let mut end = bytes.len();
    while end > 0 && bytes[end - 1] == 0 {
        end -= 1;
    }
    &bytes[..end]
}
