ghost use Rattle.std.specs.Prelude.{◌≡◌};
ghost use Rattle.tpol_fields.specs.declared.fault.WireFault.TheVariants.{NoMemory as WireNoMemory, Refused as WireRefused};

use std::alloc::{AllocError, AllocFailed};
use tpol_base::{NoMemory, Rc};

/// Why bytes were not read as a command, or as a field of a command or of a reply.
#[derive(Clone, Copy, Debug, PartialEq, Eq)]
pub enum WireFault {
    /// The code of the first rule that the bytes break; to those of a command it is the TPM's answer.
    Refused(Rc),
    /// Memory ran out.
    NoMemory,
}

impl From<Rc> for WireFault {
    ghost from_gives = { λ rc e. e ≡ WireRefused rc };

    fn from(rc: Rc) -> WireFault {
        WireFault::Refused(rc)
    }
}

impl From<NoMemory> for WireFault {
    ghost from_gives = { λ _ e. e ≡ WireNoMemory };

    fn from(_: NoMemory) -> WireFault {
        WireFault::NoMemory
    }
}

impl From<AllocError> for WireFault {
    ghost from_gives = { λ _ e. e ≡ WireNoMemory };

    fn from(_: AllocError) -> WireFault {
        WireFault::NoMemory
    }
}

impl<T: Drop> From<AllocFailed<T>> for WireFault {
    ghost from_gives = { λ _ e. e ≡ WireNoMemory };

    fn from(_: AllocFailed<T>) -> WireFault {
        WireFault::NoMemory
    }
}
