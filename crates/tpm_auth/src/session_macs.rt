//! The HMACs of sessions.

ghost use Rattle.std.specs.Prelude.{◌≡◌};
ghost use Rattle.tpm_auth.specs.SessionMacs.{command_mac, is_command_mac, reply_mac, session_mac};

use tpol_base::Digest32;
use tpol_hash::Mac;

/// The HMAC of a command in a session that is neither bound nor salted: over the cpHash, the caller's
/// nonce, the session's nonceTPM and the session attributes, with the authorization value as key
/// (TPM 2.0 Part 1, "HMAC Computation").
pub fn command_mac(
    auth: &[u8],
    cp_hash: &Digest32,
    nonce_caller: &[u8],
    nonce_tpm: &Digest32,
    attributes: u8,
) -> Digest32
    ensures mac { result ≡ command_mac auth.now cp_hash.now nonce_caller.now nonce_tpm.now
        attributes }
{
    session_mac(auth, cp_hash, nonce_caller, &nonce_tpm.bytes, attributes)
}

/// Whether the field hmac of a command is right: it is `command_mac`, or it is empty and so is the
/// authorization value.
pub fn check_hmac(
    auth: &[u8],
    cp_hash: &Digest32,
    nonce_caller: &[u8],
    nonce_tpm: &Digest32,
    attributes: u8,
    given: &[u8],
) -> bool
    ensures right { result ≡ is_command_mac auth.now cp_hash.now nonce_caller.now nonce_tpm.now
        attributes given.now }
{
    if auth.is_empty() && given.is_empty() {
        return true;
    }
    let mac = command_mac(auth, cp_hash, nonce_caller, nonce_tpm, attributes);
    given == mac.bytes.as_slice()
}

/// The HMAC of a reply in such a session: over the rpHash, the new nonceTPM, the nonce of the command's
/// caller and the session attributes, with the authorization value as key (TPM 2.0 Part 1, "HMAC
/// Computation").
pub fn reply_mac(
    auth: &[u8],
    rp_hash: &Digest32,
    nonce_tpm: &Digest32,
    nonce_caller: &[u8],
    attributes: u8,
) -> Digest32
    ensures mac { result ≡ reply_mac auth.now rp_hash.now nonce_tpm.now nonce_caller.now
        attributes }
{
    session_mac(auth, rp_hash, &nonce_tpm.bytes, nonce_caller, attributes)
}

// The HMAC over the hash of the parameters, the newer nonce, the older nonce and the session attributes.
fn session_mac(
    auth: &[u8],
    parameter_hash: &Digest32,
    nonce_newer: &[u8],
    nonce_older: &[u8],
    attributes: u8,
) -> Digest32
    ensures { result ≡ session_mac auth.now parameter_hash.now nonce_newer.now nonce_older.now
        attributes }
{
    let mut mac = Mac::new(auth);
    mac.put(&parameter_hash.bytes);
    mac.put(nonce_newer);
    mac.put(nonce_older);
    mac.put(&[attributes]);
    mac.done()
}
