//! Entities by their path in the key store.

ghost use Rattle.std.specs.Prelude.{◌≡◌};
ghost use Rattle.std.specs.Option.{option_copied};
ghost use Rattle.tpol_name.specs.Entities.{hierarchy_at, index_at, object_at};

use crate::{IndexEntry, ObjectEntry, same_path};
use tpol_base::handle::{TPM_RH_ENDORSEMENT, TPM_RH_LOCKOUT, TPM_RH_OWNER};

/// The handle of the hierarchy that has this path: `HS` is the owner's, `HE` the endorsement hierarchy,
/// `LOCKOUT` the lockout authorization.
pub fn hierarchy_at(path: &str) -> Option<u32>
    ensures handle { result ≡ hierarchy_at path.now }
{
    if same_path("HS", path) {
        return Some(TPM_RH_OWNER);
    }
    if same_path("HE", path) {
        return Some(TPM_RH_ENDORSEMENT);
    }
    if same_path("LOCKOUT", path) {
        return Some(TPM_RH_LOCKOUT);
    }
    None
}

/// The first of these objects that has this path.
pub fn object_at<'a>(objects: &'a [ObjectEntry], path: &str) -> Option<&'a ObjectEntry>
    ensures object { option_copied result ≡ object_at objects.now path.now }
{
    objects
        .iter()
        .find(|object| same_path(object.path.as_str(), path))
}

/// The first of these indices that has this path.
pub fn index_at<'a>(indices: &'a [IndexEntry], path: &str) -> Option<&'a IndexEntry>
    ensures index { option_copied result ≡ index_at indices.now path.now }
{
    indices
        .iter()
        .find(|index| same_path(index.path.as_str(), path))
}
