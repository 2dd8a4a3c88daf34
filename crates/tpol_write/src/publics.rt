//! Public areas of keys and indices.

ghost use Rattle.std.specs.Prelude.{◌≡◌, OnOk};
ghost use Rattle.tpol_write.specs.Drafts.{Adds, tokens_of, Reads};
ghost use Rattle.tpol_write.specs.Wishes.{object_public_value, nv_public_value, scheme_name};

use crate::draft::Draft;
use crate::members::{put_bytes, put_number, put_short, put_word};
use std::alloc::Global;
use tpol_base::NoMemory;
use tpol_tree::{NvPublicText, ObjectPublicText};

/// Writes a key's public area (TPM 2.0 Part 2, TPMT_PUBLIC).
pub fn write_object_public(
    draft: &mut Draft,
    alloc: Global,
    area: &ObjectPublicText,
) -> Result<(), NoMemory>
    ensures tokens { OnOk result
        (Adds draft.old draft.new (tokens_of (object_public_value area.now))) }
    ensures reads { OnOk result (Reads (object_public_value area.now)) }
{
    draft.begin_object()?;
    put_bytes(draft, alloc, "authPolicy", &area.auth_policy)?;
    put_word(draft, "nameAlg", "SHA256")?;
    put_number(draft, "objectAttributes", area.attributes)?;
    put_word(draft, "scheme", scheme_name(area.hmac))?;
    put_word(draft, "type", "KEYEDHASH")?;
    put_bytes(draft, alloc, "unique", &area.unique)?;
    draft.end_object()
}

/// Writes an index's public area (TPM 2.0 Part 2, TPMS_NV_PUBLIC).
pub fn write_nv_public(
    draft: &mut Draft,
    alloc: Global,
    area: &NvPublicText,
) -> Result<(), NoMemory>
    ensures tokens { OnOk result (Adds draft.old draft.new (tokens_of (nv_public_value area.now))) }
    ensures reads { OnOk result (Reads (nv_public_value area.now)) }
{
    draft.begin_object()?;
    put_number(draft, "attributes", area.attributes)?;
    put_bytes(draft, alloc, "authPolicy", &area.auth_policy)?;
    put_short(draft, "dataSize", area.size)?;
    put_word(draft, "nameAlg", "SHA256")?;
    put_number(draft, "nvIndex", area.index)?;
    draft.end_object()
}

// The name of a key's scheme.
fn scheme_name(hmac: bool) -> &'static str
    ensures { result.now ≡ scheme_name hmac }
{
    if hmac { "HMAC" } else { "NULL" }
}
