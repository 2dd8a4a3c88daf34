//! PolicyAuthorizeNV (TPM 2.0 Part 3, TPM2_PolicyAuthorizeNV).

ghost use Rattle.std.specs.Prelude.{◌≡◌};
ghost use Rattle.tpm_bindings.specs.State.{SessionState};
ghost use Rattle.tpm_rules.specs.PolicyAuthorizeNv as spec;
ghost use Rattle.tpm_rules.specs.Rule.{Obeys};
ghost use Rattle.tpm_rules.specs.Standing.{standing_of};

use crate::Standing;
use crate::rule::unless;
use tpol_base::constants::TPM_ALG_SHA256;
use tpol_base::response_code::{HASH, NV_UNINITIALIZED, VALUE};
use tpol_base::{Digest32, Rc};
use tpol_name::{IndexEntry, written};

/// That the index was written (TPM_RC_NV_UNINITIALIZED), that its content begins with the algorithm SHA-256
/// (TPM_RC_HASH), and that the session's digest follows (TPM_RC_VALUE).
pub fn policy_authorize_nv_rule(session: &Standing, entry: &IndexEntry) -> Result<(), Rc>
    ensures rule { (state : SessionState) → session.now ≡ standing_of state
        → Obeys result (spec.policy_authorize_nv_rule state entry.now) }
{
    let content = entry.content.as_slice();
    unless(written(&entry.public), NV_UNINITIALIZED)?;
    unless(begins_with_sha256(content), HASH)?;
    unless(has_digest_behind(content, &session.digest), VALUE)
}

// Whether bytes begin with the algorithm SHA-256.
fn begins_with_sha256(content: &[u8]) -> bool
    ensures { result ≡ spec.begins_with_sha256 content.now }
{
    content.starts_with(&TPM_ALG_SHA256.to_be_bytes())
}

// Whether a digest stands behind the first two bytes.
fn has_digest_behind(content: &[u8], digest: &Digest32) -> bool
    ensures { result ≡ spec.has_digest_behind content.now digest.now }
{
    if content.len() < 34 {
        return false;
    }
    content[2..34] == digest.bytes[..]
}
