// What a certificate says.

use crate::Choices;
use tpol_base::Digests;

/// The choices of a path, and the digest after each of its moves.
#[derive(Drop)]
pub struct Certificate {
    pub steps: Choices,
    pub digests: Digests,
}
