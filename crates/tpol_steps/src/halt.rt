use crate::answer::Answer;
use tpol_base::{Lapse, NoMemory};

/// Why a command ends before its last step.
#[derive(Drop)]
pub enum Halt {
    /// The run ends with this answer.
    Refused(Answer),
    /// The source failed.
    ReadFailed,
    /// The shelf failed.
    ShelfFailed,
    /// Memory ran out.
    NoMemory,
}

impl From<NoMemory> for Halt {
    ghost use Rattle.std.specs.Prelude.{◌≡◌};
    ghost use Rattle.tpol_steps.specs.declared.halt.Halt.TheVariants as halts;

    ghost from_gives = { λ _ halt. halt ≡ halts.NoMemory };

    fn from(_: NoMemory) -> Self {
        Halt::NoMemory
    }
}

/// Of a call of the shelf.
impl From<Lapse> for Halt {
    ghost use Rattle.std.specs.Prelude.{◌≡◌};
    ghost use Rattle.tpol_steps.specs.Halts.{halt_of_lapse};

    ghost from_gives = { λ lapse halt. halt ≡ halt_of_lapse lapse };

    fn from(lapse: Lapse) -> Self {
        match lapse {
            Lapse::Failed => Halt::ShelfFailed,
            Lapse::NoMemory => Halt::NoMemory,
        }
    }
}
