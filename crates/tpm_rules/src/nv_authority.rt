//! Who may use an index (TPM 2.0 Part 3, the NV commands).

ghost use Rattle.std.specs.Prelude.{◌≡◌};
ghost use Rattle.tpm_rules.specs.NvAuthority as spec;
ghost use Rattle.tpm_rules.specs.Rule.{Obeys};

use crate::entity::is_nv_writing;
use crate::rule::unless;
use tpol_base::Rc;
use tpol_base::attributes::{NV_OWNERREAD, NV_OWNERWRITE, has_attribute};
use tpol_base::handle::TPM_RH_OWNER;
use tpol_base::response_code::NV_AUTHORIZATION;
use tpol_name::NvPublic;

/// That the authorized handle may use the index in the command of this code: it is the index, or the owner
/// where OWNERWRITE lets him write and OWNERREAD lets him do the rest (TPM_RC_NV_AUTHORIZATION).
pub fn nv_authority_rule(handle: u32, public: &NvPublic, code: u32) -> Result<(), Rc>
    ensures rule { Obeys result (spec.nv_authority_rule handle public.now code) }
{
    unless(has_authority(handle, public, code), NV_AUTHORIZATION)
}

// Whether the authorized handle may use the index.
fn has_authority(handle: u32, public: &NvPublic, code: u32) -> bool
    ensures { result ≡ spec.has_authority handle public.now code }
{
    let attribute = if is_nv_writing(code) {
        NV_OWNERWRITE
    } else {
        NV_OWNERREAD
    };
    handle == public.index || handle == TPM_RH_OWNER && has_attribute(public.attributes, attribute)
}
