// The indices of a sight, whose contents have their sizes.

ghost use Rattle.std.specs.Prelude.{◌≡◌, IfSome};
ghost use Rattle.std.specs.Option.{option_copied};
ghost use Rattle.tpm_nv.specs.Contents.{HasContent};
ghost use Rattle.tpol_goal.specs.Entities.{index_in_sight, index_of_handle};
ghost use Rattle.tpol_name.specs.Setups.{IsSight};

use tpol_base::Name;
use tpol_name::{IndexEntry, Sight};

// The first index that has a Name once it is written.
pub fn index_of_name<'a>(sight: &'a Sight, name: &Name) -> Option<&'a IndexEntry>
    requires sight { IsSight sight.now }
    ensures index { option_copied result ≡ index_in_sight sight.now name.now }
    ensures content { IfSome result (λ index. HasContent index.now) }
{
    tpol_goal::index_in_sight(sight, name)
}

// The index with a handle.
pub fn index_of_handle(sight: &Sight, handle: u32) -> Option<&IndexEntry>
    requires sight { IsSight sight.now }
    ensures index { option_copied result ≡ index_of_handle sight.now handle }
    ensures content { IfSome result (λ index. HasContent index.now) }
{
    tpol_goal::index_of_handle(sight, handle)
}
