// PolicyAuthorize (TPM 2.0 Part 3, TPM2_PolicyAuthorize), behind VerifySignature, which gives its ticket.

ghost use Rattle.std.specs.Prelude.{◌≡◌, true};
ghost use Rattle.tpm_bindings.specs.State.{SessionState};
ghost use Rattle.tpm_rules.specs.Objects.{verify_signature_rule as verify_rule};
ghost use Rattle.tpm_rules.specs.PolicyAuthorize.{policy_authorize_rule as authorize_rule};
ghost use Rattle.tpm_rules.specs.Rule.{Breaks, Obeys, or_else};
ghost use Rattle.tpm_rules.specs.Standing.{standing_of};
ghost use Rattle.tpol_choose.specs.Moves as spec;
ghost use Rattle.tpol_goal.specs.Entities.{object_in_sight};

use crate::Why;
use crate::answer::answered;
use crate::client::Client;
use tpm_auth::sign;
use tpm_rules::{Standing, approval_hash, policy_authorize_rule, verify_signature_rule};
use tpol_base::{Digest32, Name, Rc};
use tpol_goal::object_in_sight;
use tpol_name::ObjectEntry;

pub fn policy_authorize(
    client: &Client<'_>,
    session: &Standing,
    key: &Name,
    policy_ref: &[u8],
    approved: &Digest32,
    signature: &Digest32,
) -> Result<(), Why>
    ensures { (state : SessionState) → session.now ≡ standing_of state
        → Breaks result (spec.approve_block state policy_ref.now approved.now signature.now
        (object_in_sight client.now.sight.now key.now)) }
{
    let Some(object) = object_in_sight(client.sight, key) else {
        return Err(Why::NoEntity);
    };
    answered(rule(session, object, policy_ref, approved, signature))
}

// VerifySignature of the approval, and then the command's own rules with the ticket.
fn rule(
    session: &Standing,
    object: &ObjectEntry,
    policy_ref: &[u8],
    approved: &Digest32,
    signature: &Digest32,
) -> Result<(), Rc>
    ensures { (state : SessionState) → session.now ≡ standing_of state
        → Obeys result (or_else (verify_rule object.now.public
        (spec.is_approved_by object.now policy_ref.now approved.now signature.now))
        (authorize_rule state approved.now true)) }
{
    let right = is_approved_by(object, policy_ref, approved, signature);
    verify_signature_rule(&object.public, right)?;
    policy_authorize_rule(session, approved, true)
}

// Whether the key's object has signed the approval.
fn is_approved_by(
    object: &ObjectEntry,
    policy_ref: &[u8],
    approved: &Digest32,
    signature: &Digest32,
) -> bool
    ensures { result ≡ spec.is_approved_by object.now policy_ref.now approved.now signature.now }
{
    let signed = sign(
        object.secret.as_slice(),
        &approval_hash(approved, policy_ref),
    );
    signature.bytes == signed.bytes
}
