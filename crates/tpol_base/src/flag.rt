//! Truth values as bytes.

ghost use Rattle.std.specs.Prelude.{◌≡◌};
ghost use Rattle.tpol_base.specs.Flag.{yes_no};

/// The byte of a truth value (TPM 2.0 Part 2, TPMI_YES_NO): 1 for yes, 0 for no.
pub fn yes_no(flag: bool) -> u8
    ensures { result ≡ yes_no flag }
{
    flag as u8
}
