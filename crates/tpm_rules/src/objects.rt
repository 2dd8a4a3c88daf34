//! The commands on objects (TPM 2.0 Part 3, TPM2_Unseal, TPM2_HMAC, TPM2_Duplicate, TPM2_VerifySignature).

ghost use Rattle.std.specs.Prelude.{◌≡◌};
ghost use Rattle.tpm_rules.specs.Objects as spec;
ghost use Rattle.tpm_rules.specs.Rule.{Obeys};

use crate::rule::unless;
use tpol_base::Rc;
use tpol_base::attributes::{
    OBJECT_DECRYPT, OBJECT_FIXED_PARENT, OBJECT_RESTRICTED, OBJECT_SIGN, has_attribute,
};
use tpol_base::response_code::{ATTRIBUTES, KEY, SIGNATURE, of_handle, of_parameter};
use tpol_name::{ObjectPublic, Scheme, is_signing_key};

/// Unseal: that the object is sealed data and not an HMAC key, and none of restricted, decrypt and sign is set
/// (TPM_RC_ATTRIBUTES, handle 1).
pub fn unseal_rule(public: &ObjectPublic) -> Result<(), Rc>
    ensures rule { Obeys result (spec.unseal_rule public.now) }
{
    unless(is_unsealable(public), ATTRIBUTES + of_handle(1))
}

/// HMAC: that restricted is clear (TPM_RC_ATTRIBUTES, handle 1), and that the object is an HMAC key that may
/// sign (TPM_RC_KEY, handle 1).
pub fn hmac_rule(public: &ObjectPublic) -> Result<(), Rc>
    ensures rule { Obeys result (spec.hmac_rule public.now) }
{
    let is_restricted = has_attribute(public.attributes, OBJECT_RESTRICTED);
    unless(!is_restricted, ATTRIBUTES + of_handle(1))?;
    unless(is_signing_key(public), KEY + of_handle(1))
}

/// Duplicate: that fixedParent is clear (TPM_RC_ATTRIBUTES, handle 1).
pub fn duplicate_rule(public: &ObjectPublic) -> Result<(), Rc>
    ensures rule { Obeys result (spec.duplicate_rule public.now) }
{
    let is_fixed = has_attribute(public.attributes, OBJECT_FIXED_PARENT);
    unless(!is_fixed, ATTRIBUTES + of_handle(1))
}

/// VerifySignature and PolicySigned: that the object is an HMAC key that may sign (TPM_RC_ATTRIBUTES,
/// handle 1).
pub fn signing_key_rule(public: &ObjectPublic) -> Result<(), Rc>
    ensures rule { Obeys result (spec.signing_key_rule public.now) }
{
    unless(is_signing_key(public), ATTRIBUTES + of_handle(1))
}

/// VerifySignature: that the object is such a key, and behind it that the signature is right, as the caller
/// judges it (TPM_RC_SIGNATURE, parameter 2).
pub fn verify_signature_rule(public: &ObjectPublic, right: bool) -> Result<(), Rc>
    ensures rule { Obeys result (spec.verify_signature_rule public.now right) }
{
    signing_key_rule(public)?;
    unless(right, SIGNATURE + of_parameter(2))
}

// Whether an object is data that may be unsealed.
fn is_unsealable(public: &ObjectPublic) -> bool
    ensures { result ≡ spec.is_unsealable public.now }
{
    let attributes = public.attributes;
    match public.scheme {
        Scheme::HmacKey => false,
        Scheme::Sealed => {
            !(has_attribute(attributes, OBJECT_RESTRICTED)
                || has_attribute(attributes, OBJECT_DECRYPT)
                || has_attribute(attributes, OBJECT_SIGN))
        }
    }
}
