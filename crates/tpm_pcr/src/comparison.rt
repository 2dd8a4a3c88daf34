//! The twelve comparisons of operands.

ghost use Rattle.std.specs.Prelude.{◌≡◌, length};
ghost use Rattle.std.specs.Cmp.Lexicographic.{slice_cmp};
ghost use Rattle.std.specs.Ordering.{nat_cmp};
ghost use Rattle.tpm_pcr.specs.Comparison.{has_bits, has_none_of_bits, holds, is_negative, signed_order, unsigned_order};

use std::cmp::Ordering;
use tpol_base::Compare;

/// Whether the first operand compares as wanted with the second one. Operands of one length are big-endian
/// numbers, for the signed comparisons in two's complement; BITSET wants every bit of the second operand set
/// in the first one, BITCLEAR wants none (TPM 2.0 Part 3, TPM2_PolicyNV).
pub fn compare(operation: Compare, a: &[u8], b: &[u8]) -> bool
    requires lengths { length a.now ≡ length b.now }
    ensures comparison { result ≡ holds operation a.now b.now }
{
    match operation {
        Compare::Eq => unsigned_order(a, b).is_eq(),
        Compare::Neq => unsigned_order(a, b).is_ne(),
        Compare::SignedGt => signed_order(a, b).is_gt(),
        Compare::UnsignedGt => unsigned_order(a, b).is_gt(),
        Compare::SignedLt => signed_order(a, b).is_lt(),
        Compare::UnsignedLt => unsigned_order(a, b).is_lt(),
        Compare::SignedGe => signed_order(a, b).is_ge(),
        Compare::UnsignedGe => unsigned_order(a, b).is_ge(),
        Compare::SignedLe => signed_order(a, b).is_le(),
        Compare::UnsignedLe => unsigned_order(a, b).is_le(),
        Compare::BitSet => has_bits(a, b),
        Compare::BitClear => has_none_of_bits(a, b),
    }
}

// How two operands of one length stand to each other as unsigned numbers: as their bytes do, the first
// that differs deciding.
fn unsigned_order(a: &[u8], b: &[u8]) -> Ordering
    requires { length a.now ≡ length b.now }
    ensures { result ≡ unsigned_order a.now b.now }
{
    order_of_bytes(a, b)
}

// How two operands stand to each other byte by byte.
fn order_of_bytes(a: &[u8], b: &[u8]) -> Ordering
    ensures { result ≡ slice_cmp nat_cmp a.now b.now }
{
    a.cmp(b)
}

// How two operands of one length stand to each other in two's complement: among numbers of one sign as
// unsigned numbers do.
fn signed_order(a: &[u8], b: &[u8]) -> Ordering
    requires { length a.now ≡ length b.now }
    ensures { result ≡ signed_order a.now b.now }
{
    let negative = is_negative(a);
    if negative == is_negative(b) {
        unsigned_order(a, b)
    } else if negative {
        Ordering::Less
    } else {
        Ordering::Greater
    }
}

// Whether the sign bit is set.
fn is_negative(operand: &[u8]) -> bool
    ensures { result ≡ is_negative operand.now }
{
    operand.first().is_some_and(|first| *first >= 0x80)
}

// Whether all bits of the second operand are set in the first one.
fn has_bits(a: &[u8], b: &[u8]) -> bool
    ensures { result ≡ has_bits a.now b.now }
{
    a.iter().zip(b).all(|(x, y)| *x & *y == *y)
}

// Whether no bit of the second operand is set in the first one.
fn has_none_of_bits(a: &[u8], b: &[u8]) -> bool
    ensures { result ≡ has_none_of_bits a.now b.now }
{
    a.iter().zip(b).all(|(x, y)| *x & *y == 0)
}
