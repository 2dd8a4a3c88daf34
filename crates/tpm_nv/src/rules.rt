//! The rules of NV_Read, NV_Write and NV_Increment over one index.

ghost use Rattle.std.specs.Prelude.{◌≡◌, ◌+◌, None, Some, IfErr, IfOk, OnOk};
ghost use Rattle.tpm_nv.specs.Contents.{HasContent};
ghost use Rattle.tpm_nv.specs.Counters.{count_before, written_count};
ghost use Rattle.tpm_nv.specs.Rules.{increment_rule, read_rule, write_rule};

use crate::contents::count_of;
use tpol_base::Rc;
use tpol_base::attributes::{NT_COUNTER, NT_ORDINARY, NV_WRITEALL, has_attribute, index_type};
use tpol_base::response_code::{
    ATTRIBUTES, NV_RANGE, NV_UNINITIALIZED, VALUE, of_handle, of_parameter,
};
use tpol_name::{IndexEntry, written};

/// Whether bytes of this index can be read (TPM 2.0 Part 3, TPM2_NV_Read). Refuses with the first that
/// holds: it was never written, TPM_RC_NV_UNINITIALIZED (0x14a); the offset is past its end, TPM_RC_VALUE,
/// parameter 2 (0x2c4); the bytes are, TPM_RC_NV_RANGE (0x146).
pub fn check_read(entry: &IndexEntry, offset: u16, size: u16) -> Result<(), Rc>
    ensures ok { OnOk result (read_rule entry.now offset size ≡ None) }
    ensures refused { IfErr result (λ rc. read_rule entry.now offset size ≡ Some rc.code) }
{
    let public = &entry.public;
    if !written(public) {
        return Err(Rc {
            code: NV_UNINITIALIZED,
        });
    }
    if offset > public.size {
        return Err(Rc {
            code: VALUE + of_parameter(2),
        });
    }
    if offset as u32 + size as u32 > public.size as u32 {
        return Err(Rc { code: NV_RANGE });
    }
    Ok(())
}

/// Whether so many bytes can be written to this index (TPM 2.0 Part 3, TPM2_NV_Write). Refuses with the
/// first that holds: it is not of the type ordinary, TPM_RC_ATTRIBUTES, handle 2 (0x282); the offset is past its
/// end, TPM_RC_VALUE, parameter 2 (0x2c4); the bytes are, or the index takes only a whole content and they are
/// fewer, TPM_RC_NV_RANGE (0x146).
pub fn check_write(entry: &IndexEntry, offset: u16, count: usize) -> Result<(), Rc>
    ensures ok { OnOk result (write_rule entry.now offset count ≡ None) }
    ensures refused { IfErr result (λ rc. write_rule entry.now offset count ≡ Some rc.code) }
{
    let public = &entry.public;
    if index_type(public.attributes) != NT_ORDINARY {
        return Err(Rc {
            code: ATTRIBUTES + of_handle(2),
        });
    }
    if offset > public.size {
        return Err(Rc {
            code: VALUE + of_parameter(2),
        });
    }
    if count > (public.size - offset) as usize {
        return Err(Rc { code: NV_RANGE });
    }
    if has_attribute(public.attributes, NV_WRITEALL) && count < public.size as usize {
        return Err(Rc { code: NV_RANGE });
    }
    Ok(())
}

/// The count of a counter that was written; `None` for every other index.
pub fn written_count(entry: &IndexEntry) -> Option<u64>
    requires content { HasContent entry.now }
    ensures count { result ≡ written_count entry.now }
{
    if index_type(entry.public.attributes) == NT_COUNTER && written(&entry.public) {
        Some(count_of(entry.content.as_slice()))
    } else {
        None
    }
}

/// The count after an increment of this index, where `greatest` is the greatest count of all written
/// counters (TPM 2.0 Part 3, TPM2_NV_Increment). Refuses with the first that holds: it is no counter,
/// TPM_RC_ATTRIBUTES, handle 2 (0x282); the count before is the last one, TPM_RC_NV_RANGE (0x146).
pub fn next_count(entry: &IndexEntry, greatest: u64) -> Result<u64, Rc>
    requires content { HasContent entry.now }
    ensures next { IfOk result (λ next. next ≡ count_before greatest entry.now + 1) }
    ensures ok { OnOk result (increment_rule entry.now (count_before greatest entry.now) ≡ None) }
    ensures refused { IfErr result (λ rc. increment_rule entry.now (count_before greatest entry.now)
        ≡ Some rc.code) }
{
    if index_type(entry.public.attributes) != NT_COUNTER {
        return Err(Rc {
            code: ATTRIBUTES + of_handle(2),
        });
    }
    let before = if written(&entry.public) {
        count_of(entry.content.as_slice())
    } else {
        greatest
    };
    match before.checked_add(1) {
        Some(next) => Ok(next),
        None => Err(Rc { code: NV_RANGE }),
    }
}
