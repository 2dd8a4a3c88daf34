//! PolicyGetDigest (TPM 2.0 Part 3, TPM2_PolicyGetDigest).

ghost use Rattle.std.specs.Prelude.{◌≡◌};
ghost use Rattle.tpm_rules.specs.Rule.{Obeys};
ghost use Rattle.tpm_engine.specs.SessionCommands as spec;

use crate::Tables;
use tpm_rules::unless;
use tpol_base::response_code::REFERENCE_H0;
use tpol_base::{Digest32, Rc};
use tpol_wire::Reply;

// That the session is live (TPM_RC_REFERENCE_H0).
pub fn rule(tables: &Tables, session: u32) -> Result<(), Rc>
    ensures rule { Obeys result (spec.live_rule tables.now session) }
{
    unless(tables.sessions.find(session).is_some(), REFERENCE_H0)
}

// The session's policyDigest.
pub fn reply(tables: &Tables, session: u32) -> Reply
    ensures reply { result ≡ spec.digest_reply tables.now session }
{
    match tables.sessions.find(session) {
        Some(session) => Reply::PolicyGetDigest {
            digest: session.digest(),
        },
        None => Reply::PolicyGetDigest {
            digest: Digest32::ZERO,
        },
    }
}
