// The arguments of policy commands, each word with a space in front.

ghost use Rattle.std.specs.Prelude.{◌≡◌, ◌∷◌, [], codes, IfOk};
ghost use Rattle.std.specs.String.{string_bytes};
ghost use Rattle.tpol_moves.specs.Arguments.{digest_text, digests_text, if_listed, move_words};
ghost use Rattle.tpol_moves.specs.Steps.{behind_spaces};
ghost use Rattle.tpol_tree.specs.declared.path.Move.TheVariants as moves;

use crate::assertions::assertion_arguments;
use crate::values::{bytes_text, digest_text, digests_text, name_text};
use std::alloc::Global;
use tpm_rules::approval_hash;
use tpol_base::{Blob, Digest32, Name, NoMemory};
use tpol_tree::Move;

// The arguments of a policy command.
pub fn move_arguments(alloc: Global, act: &Move) -> Result<String, NoMemory>
    ensures { IfOk result (λ text. string_bytes text ≡ behind_spaces (move_words act.now)) }
{
    match act {
        Move::Assert(assertion) => assertion_arguments(alloc, assertion),
        Move::Or(digests) => or_arguments(alloc, digests.as_slice()),
        Move::Approve {
            key,
            policy_ref,
            approved,
            signature,
        } => approve_arguments(alloc, key, policy_ref, approved, signature),
        Move::ApproveNv { index, approved } => approve_nv_arguments(alloc, index, approved),
    }
}

fn or_arguments(alloc: Global, digests: &[Digest32]) -> Result<String, NoMemory>
    ensures { IfOk result (λ text. string_bytes text
        ≡ behind_spaces (digests_text digests.now ∷ [])) }
{
    let digests = digests_text(alloc, digests)?;
    let digests = digests.as_str();
    Ok(format!(in alloc; " {digests}")?)
}

fn approve_arguments(
    alloc: Global,
    key: &Name,
    policy_ref: &Blob,
    approved: &Digest32,
    signature: &Digest32,
) -> Result<String, NoMemory>
    ensures { IfOk result (λ text. string_bytes text
        ≡ behind_spaces (move_words
        (moves.Approve key.now policy_ref.now approved.now signature.now))) }
{
    let hash = approval_hash(approved, policy_ref.as_slice());
    let key = name_text(alloc, key)?;
    let policy_ref = bytes_text(alloc, policy_ref.as_slice())?;
    let hash = if_listed(alloc, approved, &hash)?;
    let signature = if_listed(alloc, approved, signature)?;
    let approved = if_listed(alloc, approved, approved)?;
    Ok(format!(in alloc;
        " key {key} ref {policy_ref} approved {approved} ahash {hash} signature {signature}"
    )?)
}

fn approve_nv_arguments(
    alloc: Global,
    index: &Name,
    approved: &Digest32,
) -> Result<String, NoMemory>
    ensures { IfOk result (λ text. string_bytes text
        ≡ behind_spaces (move_words (moves.ApproveNv index.now approved.now))) }
{
    let index = name_text(alloc, index)?;
    let approved = if_listed(alloc, approved, approved)?;
    Ok(format!(in alloc; " index {index} approved {approved}")?)
}

// The digits of what belongs to an approved policy, or a dash where none is listed.
fn if_listed(alloc: Global, approved: &Digest32, digest: &Digest32) -> Result<String, NoMemory>
    ensures { IfOk result (λ text. string_bytes text
        ≡ if_listed approved.now (digest_text digest.now)) }
{
    if approved.bytes == Digest32::ZERO.bytes {
        Ok(String::from_str(alloc, "-")?)
    } else {
        digest_text(alloc, digest)
    }
}
