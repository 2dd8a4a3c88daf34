//! Authorizations by password.

ghost use Rattle.std.specs.Prelude.{◌≡◌, IfOk};
ghost use Rattle.tpol_driver.specs.Commands.{password_area};

use std::alloc::Global;
use tpol_base::handle::TPM_RS_PW;
use tpol_base::{Blob, NoMemory};
use tpol_goal::Grants;
use tpol_wire::AuthArea;

/// The attribute continueSession (TPM 2.0 Part 2, TPMA_SESSION), which an authorization by password has set.
const CONTINUE_SESSION: u8 = 1;

/// An authorization by the value that is granted for this entity, empty where none is.
pub(crate) fn password(alloc: Global, grants: &Grants, entity: u32) -> Result<AuthArea, NoMemory>
    ensures { IfOk result (λ area. area ≡ password_area grants.now entity) }
{
    Ok(AuthArea {
        session: TPM_RS_PW,
        nonce: Blob::new(alloc),
        attributes: CONTINUE_SESSION,
        hmac: Blob::from_slice(alloc, grants.secret(entity))?,
    })
}
