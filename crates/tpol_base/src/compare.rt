//! The comparisons of PolicyNV and PolicyCounterTimer.

ghost use Rattle.std.specs.Prelude.{◌≡◌, map};
ghost use Rattle.tpol_base.specs.Compare.{compare_of_number, name_of_compare, names_of_comparisons, number_of_compare};

/// The comparison of PolicyNV and PolicyCounterTimer (TPM 2.0 Part 2, TPM_EO), numbered 0 to 11 in this
/// order. Operands are compared as big-endian numbers, signed ones in two's complement.
#[derive(Clone, Copy, Debug, PartialEq, Eq)]
pub enum Compare {
    Eq,
    Neq,
    SignedGt,
    UnsignedGt,
    SignedLt,
    UnsignedLt,
    SignedGe,
    UnsignedGe,
    SignedLe,
    UnsignedLe,
    BitSet,
    BitClear,
}

/// Every comparison, by its number.
const COMPARISONS: [Compare; 12] = [
    Compare::Eq,
    Compare::Neq,
    Compare::SignedGt,
    Compare::UnsignedGt,
    Compare::SignedLt,
    Compare::UnsignedLt,
    Compare::SignedGe,
    Compare::UnsignedGe,
    Compare::SignedLe,
    Compare::UnsignedLe,
    Compare::BitSet,
    Compare::BitClear,
];

impl Compare {
    /// The comparison's number in TPM_EO.
    pub fn number(self) -> u16
        ensures { result ≡ number_of_compare self }
    {
        match self {
            Compare::Eq => 0,
            Compare::Neq => 1,
            Compare::SignedGt => 2,
            Compare::UnsignedGt => 3,
            Compare::SignedLt => 4,
            Compare::UnsignedLt => 5,
            Compare::SignedGe => 6,
            Compare::UnsignedGe => 7,
            Compare::SignedLe => 8,
            Compare::UnsignedLe => 9,
            Compare::BitSet => 10,
            Compare::BitClear => 11,
        }
    }

    /// The comparison of this number in TPM_EO; `None` from 12 on.
    #[tactic(auto, unfolding(crate::specs::Compare::compare_of_number))]
    pub fn from_number(number: u16) -> Option<Compare>
        ensures { result ≡ compare_of_number number }
    {
        COMPARISONS
            .iter()
            .copied()
            .find(|compare| compare.number() == number)
    }

    /// The comparison's name, without `TPM_EO_`, as documents write it.
    pub fn name(self) -> &'static str
        ensures { result.now ≡ name_of_compare self }
    {
        match self {
            Compare::Eq => "EQ",
            Compare::Neq => "NEQ",
            Compare::SignedGt => "SIGNED_GT",
            Compare::UnsignedGt => "UNSIGNED_GT",
            Compare::SignedLt => "SIGNED_LT",
            Compare::UnsignedLt => "UNSIGNED_LT",
            Compare::SignedGe => "SIGNED_GE",
            Compare::UnsignedGe => "UNSIGNED_GE",
            Compare::SignedLe => "SIGNED_LE",
            Compare::UnsignedLe => "UNSIGNED_LE",
            Compare::BitSet => "BITSET",
            Compare::BitClear => "BITCLEAR",
        }
    }

    /// Every comparison with its name, by its number.
    pub fn names() -> &'static [(&'static str, Compare)]
        ensures { map (λ word. (word.0.now, word.1)) result.now ≡ names_of_comparisons }
    {
        &[
            ("EQ", Compare::Eq),
            ("NEQ", Compare::Neq),
            ("SIGNED_GT", Compare::SignedGt),
            ("UNSIGNED_GT", Compare::UnsignedGt),
            ("SIGNED_LT", Compare::SignedLt),
            ("UNSIGNED_LT", Compare::UnsignedLt),
            ("SIGNED_GE", Compare::SignedGe),
            ("UNSIGNED_GE", Compare::UnsignedGe),
            ("SIGNED_LE", Compare::SignedLe),
            ("UNSIGNED_LE", Compare::UnsignedLe),
            ("BITSET", Compare::BitSet),
            ("BITCLEAR", Compare::BitClear),
        ]
    }
}
