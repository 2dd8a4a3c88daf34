//! Laws of canonical text, over the definitions of reading and writing alone.

ghost use Rattle.tpol_write.specs.Laws.{BytesReadBack, CanonicalValuesStand, NumbersReadBack};

/// Bytes read back from their hexadecimal text.
pub fn bytes_read_back()
    ensures { BytesReadBack }
{}

/// A number of 64 bits with a sign reads back wherever it lies within the limits.
pub fn numbers_read_back()
    ensures { NumbersReadBack }
{}

/// Canonical text reads back: a policy that any document stands for is what its canonical value stands for,
/// without a note. At most sixteen of its ORs stand inside one another, so its text is read as that value.
pub fn canonical_values_stand()
    ensures { CanonicalValuesStand }
{}
