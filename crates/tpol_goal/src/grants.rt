//! The values and keys that a client may use.

ghost use Rattle.std.specs.Prelude.{◌≡◌, option_map};
ghost use Rattle.std.proofs.Common.{rules};
ghost use Rattle.tpol_goal.specs.Grants.{authority, granted, is_granted, secret_of};

use tpol_base::attributes::{NV_AUTHREAD, has_attribute};
use tpol_base::handle::TPM_RH_OWNER;
use tpol_base::{Blob, ExactClone, Sequence};

/// Values by the handle of the entity that they are for.
pub type Secrets = Sequence<(u32, Blob)>;

/// What a client may use: the authorization values of hierarchies, objects and indices (at most 32 bytes,
/// the last not zero), and the HMAC keys of objects (at most 128 bytes). No handle stands twice in a list.
#[derive(Clone, Drop)]
pub struct Grants {
    pub secrets: Secrets,
    pub keys: Secrets,
}

impl ExactClone for Grants {
    ghost same = { Prim.search rules };
}

impl Grants {
    /// The authorization value that is granted for this entity, empty where none is.
    pub fn secret(&self, handle: u32) -> &[u8]
        ensures value { result.now ≡ secret_of self.now.secrets handle }
    {
        match find(self.secrets.as_slice(), handle) {
            Some(value) => value,
            None => &[],
        }
    }

    /// Whether an authorization value is granted for this entity, be it empty.
    pub fn has_secret(&self, handle: u32) -> bool
        ensures listed { result ≡ is_granted self.now.secrets handle }
    {
        find(self.secrets.as_slice(), handle).is_some()
    }

    /// The HMAC key that is granted for this object; `None` exactly where none is.
    pub fn key(&self, handle: u32) -> Option<&[u8]>
        ensures value { option_map (λ key. key.now) result ≡ granted self.now.keys handle }
    {
        find(self.keys.as_slice(), handle)
    }

    /// The handle by whose password an index with this handle and these attributes is read: the index's own
    /// where it has AUTHREAD and a value is granted for it, else the owner's.
    pub fn authority(&self, index: u32, attributes: u32) -> u32
        ensures handle { result ≡ authority self.now index attributes }
    {
        if has_attribute(attributes, NV_AUTHREAD) && self.has_secret(index) {
            index
        } else {
            TPM_RH_OWNER
        }
    }
}

// The value of the first line with this handle.
fn find(values: &[(u32, Blob)], handle: u32) -> Option<&[u8]>
    ensures { option_map (λ value. value.now) result ≡ granted values.now handle }
{
    let granted = values.iter().find(|value| value.0 == handle)?;
    Some(granted.1.as_slice())
}
