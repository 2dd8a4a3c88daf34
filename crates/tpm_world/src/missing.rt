//! What a missing entity is refused with.

ghost use Rattle.std.specs.Prelude.{◌≡◌};
ghost use Rattle.tpm_world.specs.Missing as spec;

use tpol_base::Rc;
use tpol_base::response_code::{HANDLE, of_handle, reference_of_handle};

/// The refusal of a command whose first handle is an object that is not there.
pub fn missing_object() -> Rc
    ensures code { result.code ≡ spec.missing_object }
{
    Rc {
        code: reference_of_handle(1),
    }
}

/// The refusal of a command whose second handle is an index that is not there.
pub fn missing_index() -> Rc
    ensures code { result.code ≡ spec.missing_index }
{
    Rc {
        code: HANDLE + of_handle(2),
    }
}
