// Why a certificate is refused.

ghost use Rattle.std.specs.Prelude.{◌≡◌};
ghost use Rattle.tpol_cert.specs.declared.fault.CertFault.TheVariants as faults;

use tpol_base::NoMemory;

/// Why bytes do not certify a path of a policy, or that memory ran out, which may be told in place of any cause. Where
/// there are several causes, the first in this order is told.
#[derive(Clone, Copy, Debug, PartialEq, Eq)]
pub enum CertFault {
    /// The bytes are no certificate.
    Malformed,
    /// The choice of this number, from 1, is the first that names none where the earlier ones lead, is one too many, or
    /// is missing.
    NoStep(u32),
    /// The digest of this number, from 1, is the first that is not the path's, is one too many, or is missing.
    Differs(u32),
    /// Memory ran out.
    NoMemory,
}

impl From<NoMemory> for CertFault {
    ghost from_gives = { λ _ fault. fault ≡ faults.NoMemory };

    fn from(_: NoMemory) -> CertFault {
        CertFault::NoMemory
    }
}
