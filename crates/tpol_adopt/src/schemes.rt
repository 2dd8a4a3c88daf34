//! The schemes of keys and the signatures of authorizations, where FAPI writes them within other members.

ghost use Rattle.std.specs.Prelude.{◌≡◌, codes, option_map, Some};
ghost use Rattle.serde_json.specs.Find.{get};
ghost use Rattle.serde_json.specs.View.{view};
ghost use Rattle.tpol_adopt.specs.Edits.{hmac_digest, inner_scheme, is_sha256, scheme_in, sha256_digest};

use crate::words::{has, says};
use serde_json::Value;
use tpol_json::member;

/// The digest of an HMAC's signature: the one of `{"sigAlg": "HMAC", "signature": {"hashAlg": "SHA256",
/// "digest": ..}}`.
pub fn hmac_digest(value: &Value) -> Option<&str>
    ensures { option_map (λ text. text.now) result ≡ hmac_digest (view value.now) }
{
    if says(value, "sigAlg", "HMAC") {
        sha256_digest(member(value, "signature")?)
    } else {
        None
    }
}

fn sha256_digest(value: &Value) -> Option<&str>
    ensures { option_map (λ text. text.now) result ≡ sha256_digest (Some (view value.now)) }
{
    if says(value, "hashAlg", "SHA256") {
        member(value, "digest")?.as_str()
    } else {
        None
    }
}

/// The scheme of a key that has no `scheme`, by `parameters.scheme`: NULL, or HMAC with SHA-256.
pub fn inner_scheme(value: &Value) -> Option<&'static str>
    ensures { option_map (λ text. text.now) result ≡ inner_scheme (view value.now) }
{
    if has(value, "scheme") {
        return None;
    }
    scheme_of(member(member(value, "parameters")?, "scheme")?)
}

fn scheme_of(value: &Value) -> Option<&'static str>
    ensures { option_map (λ text. text.now) result ≡ scheme_in (Some (view value.now)) }
{
    if says(value, "scheme", "NULL") {
        Some("NULL")
    } else if says(value, "scheme", "HMAC") && has_sha256(value) {
        Some("HMAC")
    } else {
        None
    }
}

// Whether `details` has the hash SHA-256.
fn has_sha256(value: &Value) -> bool
    ensures { result ≡ is_sha256 (get (codes "details") (view value.now)) }
{
    match member(value, "details") {
        Some(details) => says(details, "hashAlg", "SHA256"),
        None => false,
    }
}
