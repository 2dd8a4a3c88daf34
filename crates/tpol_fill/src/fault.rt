ghost use Rattle.std.specs.Prelude.{◌≡◌, Some};
ghost use Rattle.tpol_base.specs.Answers.{IsRefusal};
ghost use Rattle.tpol_fill.specs.Outcome.{cause};
ghost use Rattle.tpol_fill.specs.declared.fault.FillFault.TheVariants.{NoMemory as no_memory};

use std::alloc::{AllocFailed, Global};
use tpol_base::NoMemory;
use tpol_json::{Place, PlaceRef};

/// What is wrong at a place of a policy: there is no value of the wanted kind, or an approval is void.
#[derive(Clone, Copy, Debug, PartialEq, Eq)]
pub enum FillKind {
    /// No entity of the wanted kind has the path.
    NoSuchPath,
    /// There is no PCR of this number, or no current value of it.
    NoSuchPcr,
    /// The path or the public area is not that of an HMAC key that may sign.
    NotKeyedHash,
    /// An approval has an element before it in its list, or before an OR that encloses it.
    VoidPrefix,
}

/// Why a policy is not filled.
#[derive(Drop)]
pub enum FillFault {
    /// The first place in the order of the document at which something is wrong.
    Bad { kind: FillKind, place: Place },
    /// Memory ran out.
    NoMemory,
}

impl From<NoMemory> for FillFault {
    ghost from_gives = { λ _ fault. fault ≡ no_memory };

    fn from(_: NoMemory) -> FillFault {
        FillFault::NoMemory
    }
}

impl<T: Drop> From<AllocFailed<T>> for FillFault {
    ghost from_gives = { λ _ fault. fault ≡ no_memory };

    fn from(_: AllocFailed<T>) -> FillFault {
        FillFault::NoMemory
    }
}

/// The fault of what stands at a place, or `NoMemory` where there is none for the place.
pub fn fault_at(alloc: Global, kind: FillKind, place: &PlaceRef<'_>) -> FillFault
    ensures { IsRefusal (cause result) (Some (kind, place.now)) }
{
    match place.to_place(alloc) {
        Ok(place) => FillFault::Bad { kind, place },
        Err(_) => FillFault::NoMemory,
    }
}
