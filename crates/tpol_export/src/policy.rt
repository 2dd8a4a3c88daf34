//! The text of a policy in FAPI's spelling.

ghost use Rattle.std.specs.Prelude.{◌≡◌, IfOk, List};
ghost use Rattle.tpol_export.specs.Text.{export_text};
ghost use Rattle.tpol_json.specs.declared.place.Place.{Place};
ghost use Rattle.serde_json.specs.Data.{Data};
ghost use Rattle.tpol_read.specs.Documents.{StandsForPolicy};
ghost use Rattle.tpol_tree.specs.Erased.{erased_policy};

use crate::walk::spelled;
use std::alloc::Global;
use tpol_base::{Blob, NoMemory};
use tpol_json::{ParseFault, parse};
use tpol_tree::Policy;
use tpol_write::{canonical_values_stand, write_policy};

/// The text without spaces of a policy in FAPI's spelling. The policy is one that some document stands for, as each is
/// that was read.
pub fn export_policy(alloc: Global, policy: &Policy) -> Result<Blob, NoMemory>
    requires { (d : Data) × (notes : List Place)
        × StandsForPolicy d (erased_policy policy.now) notes }
    ensures text { IfOk result (λ text. text ≡ export_text policy.now) }
{
    canonical_values_stand();
    let canonical = write_policy(alloc, policy)?;
    match parse(alloc, canonical.as_slice()) {
        Ok(value) => {
            let text = spelled(alloc, &value)?.to_string(alloc)?;
            Blob::from_slice(alloc, text.as_str().as_bytes())
        }
        Err(ParseFault::NotJson) => unreachable!(),
        Err(ParseFault::NoMemory) => Err(NoMemory),
    }
}
