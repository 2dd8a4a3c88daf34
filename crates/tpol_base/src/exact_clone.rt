//! Types whose clones are equal to what they were made from.

ghost use Rattle.std.specs.Prelude.{◌≡◌, IfOk};

use crate::{Digest32, Name, NoMemory, Sequence, Text};

/// A type whose clones are equal to the value that they were made from. A `Sequence` of such items has a
/// `clone` that is equal to it.
pub trait ExactClone: Clone {
    ghost same: { (value clone : Self) → Self.is_clone value clone → clone ≡ value };

    /// A clone, whose contract says that it is equal.
    final fn exact_clone(&self) -> Result<Self, NoMemory>
        ensures { IfOk result (λ clone. clone ≡ self.now) }
    {
        Ok(self.clone()?)
    }
}

impl ExactClone for u8 {
    ghost same = { λ _ _ same. same };
}

impl ExactClone for u16 {
    ghost same = { λ _ _ same. same };
}

impl ExactClone for u32 {
    ghost same = { λ _ _ same. same };
}

impl ExactClone for u64 {
    ghost same = { λ _ _ same. same };
}

impl<A: ExactClone, B: ExactClone> ExactClone for (A, B) {
    ghost same = { λ x y same. λ i. (A.same x.0 y.0 same.0 i, B.same x.1 y.1 same.1 i) };
}

impl ExactClone for Digest32 {
    ghost same = { λ _ _ same. same };
}

impl ExactClone for Name {
    ghost same = { λ _ _ same. same };
}

impl ExactClone for Text {
    ghost same = { λ _ _ same. same };
}

impl<T: ExactClone> ExactClone for Sequence<T> {
    ghost same = { λ _ _ same. same };
}
