ghost use Rattle.std.specs.Prelude.{◌≡◌};
ghost use Rattle.tpol_wire.specs.declared.fault.ReplyFault.TheVariants.{NoMemory as ReplyNoMemory};

use tpol_base::NoMemory;

/// Why bytes were not read as a reply.
#[derive(Clone, Copy, Debug, PartialEq, Eq)]
pub enum ReplyFault {
    /// The bytes are no reply to the command.
    Malformed,
    /// Memory ran out.
    NoMemory,
}

impl From<NoMemory> for ReplyFault {
    ghost from_gives = { λ _ e. e ≡ ReplyNoMemory };

    fn from(_: NoMemory) -> ReplyFault {
        ReplyFault::NoMemory
    }
}
