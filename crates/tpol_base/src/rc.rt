//! Response codes as values.

/// A TPM response code (TPM 2.0 Part 2, TPM_RC); 0 is success.
#[derive(Clone, Copy, Debug, PartialEq, Eq)]
pub struct Rc {
    pub code: u32,
}
