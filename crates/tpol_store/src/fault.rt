//! Why a store is not loaded.

ghost use Rattle.std.specs.Prelude.{◌≡◌};
ghost use Rattle.tpol_store.specs.declared.fault.StoreFault.TheVariants.{NoMemory as no_memory};

use std::alloc::AllocError;
use tpol_base::{NoMemory, Text};
use tpol_read::PolicyFault;

/// Why a store is not loaded. A document is named without `.json`.
#[derive(Drop)]
pub enum StoreFault {
    /// The shelf failed.
    Failed,
    /// There are more than 1,024 documents.
    TooMany,
    /// A document has more than 1,048,576 bytes.
    TooLarge(Text),
    /// A document is refused, with its first fault.
    Bad(Text, PolicyFault),
    /// Memory ran out.
    NoMemory,
}

impl From<NoMemory> for StoreFault {
    ghost from_gives = { λ _ fault. fault ≡ no_memory };

    fn from(_: NoMemory) -> StoreFault {
        StoreFault::NoMemory
    }
}

impl From<AllocError> for StoreFault {
    ghost from_gives = { λ _ fault. fault ≡ no_memory };

    fn from(_: AllocError) -> StoreFault {
        StoreFault::NoMemory
    }
}
