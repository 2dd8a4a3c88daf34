//! How the authorization value of an entity is proved through a policy session.

ghost use Rattle.std.specs.Prelude.{◌≡◌};
ghost use Rattle.tpm_rules.specs.AuthValue.{is_mac, proves};
ghost use Rattle.tpm_rules.specs.FieldView.{field_of};

use tpm_auth::{check_hmac, check_password};
use tpm_bindings::LastAuth;
use tpol_base::Digest32;

/// The field hmac of a command's authorization area, with what an HMAC is made over: the cpHash, the caller's
/// nonce, the session's nonceTPM and the session attributes.
#[derive(Clone, Copy)]
pub struct Field<'a> {
    pub hmac: &'a [u8],
    pub cp_hash: Digest32,
    pub nonce_caller: &'a [u8],
    pub nonce_tpm: Digest32,
    pub attributes: u8,
}

impl Field<'_> {
    /// Whether the field proves an authorization value as the last PolicyAuthValue or PolicyPassword asks for:
    /// it is the value in plain after PolicyPassword, the HMAC with the value as key after PolicyAuthValue,
    /// and the HMAC with an empty key where there was neither. With an empty key it may be empty too.
    pub fn proves(&self, value: &[u8], last: LastAuth) -> bool
        ensures proves { result ≡ proves (field_of self.now) value.now last }
    {
        match last {
            LastAuth::Password => check_password(value, self.hmac),
            LastAuth::AuthValue => self.is_mac(value),
            LastAuth::Neither => self.is_mac(&[]),
        }
    }

    // Whether the field is the HMAC with this key, or both are empty.
    fn is_mac(&self, key: &[u8]) -> bool
        ensures { result ≡ is_mac (field_of self.now) key.now }
    {
        check_hmac(
            key,
            &self.cp_hash,
            self.nonce_caller,
            &self.nonce_tpm,
            self.attributes,
            self.hmac,
        )
    }
}
