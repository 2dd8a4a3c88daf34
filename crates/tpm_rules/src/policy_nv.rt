//! PolicyNV (TPM 2.0 Part 3, TPM2_PolicyNV).

ghost use Rattle.std.specs.Prelude.{◌≡◌, ◌+◌, ◌≤◌, length, nat_le};
ghost use Rattle.tpm_rules.specs.PolicyNv.{compares, policy_nv_rule};
ghost use Rattle.tpm_rules.specs.Rule.{Obeys};

use crate::rule::unless;
use tpm_pcr::compare;
use tpol_base::response_code::{NV_UNINITIALIZED, POLICY, SIZE, VALUE, of_parameter};
use tpol_base::{Compare, Rc};
use tpol_name::{IndexEntry, written};

/// That the index was written (TPM_RC_NV_UNINITIALIZED), that the offset (TPM_RC_VALUE, parameter 2) and the
/// operand from there on (TPM_RC_SIZE, parameter 1) lie within it, and that the comparison of its content
/// with the operand holds (TPM_RC_POLICY). The content has as many bytes as the public area says.
pub fn policy_nv_rule(
    entry: &IndexEntry,
    operand: &[u8],
    offset: u16,
    operation: Compare,
) -> Result<(), Rc>
    requires content { length entry.now.content ≡ entry.now.public.size }
    ensures rule { Obeys result (policy_nv_rule entry.now operand.now offset operation) }
{
    let size = usize::from(entry.public.size);
    unless(written(&entry.public), NV_UNINITIALIZED)?;
    unless(usize::from(offset) <= size, VALUE + of_parameter(2))?;
    unless(fits(size, offset, operand), SIZE + of_parameter(1))?;
    unless(
        compares(operation, entry.content.as_slice(), offset, operand),
        POLICY,
    )
}

// Whether an operand, from an offset on, ends within so many bytes.
pub fn fits(size: usize, offset: u16, operand: &[u8]) -> bool
    ensures { result ≡ nat_le (offset + length operand.now) size }
{
    let offset = usize::from(offset);
    offset <= size && operand.len() <= size - offset
}

// Whether the bytes from an offset on, as many as the operand has, compare with it as wanted.
pub fn compares(operation: Compare, bytes: &[u8], offset: u16, operand: &[u8]) -> bool
    requires within { offset + length operand.now ≤ length bytes.now }
    ensures { result ≡ compares operation bytes.now offset operand.now }
{
    let offset = usize::from(offset);
    compare(operation, &bytes[offset..offset + operand.len()], operand)
}
