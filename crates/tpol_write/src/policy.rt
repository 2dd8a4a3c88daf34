//! Policies and their authorizations.

ghost use Rattle.std.specs.Prelude.{◌≡◌, ◌≤◌, Some, IfOk, OnOk, map};
ghost use Rattle.tpol_json.specs.Document.{document_of};
ghost use Rattle.tpol_tree.specs.declared.wishes.ApprovalWish.TheVariants.{ByKey, ByIndex};
ghost use Rattle.tpol_write.specs.Approvals.{approval_value, approvals_members};
ghost use Rattle.tpol_write.specs.Canonical.{canonical_text, policy_value};
ghost use Rattle.tpol_write.specs.Drafts.{Adds, AllMembersRead, members_tokens, Reads, tokens_of};
ghost use Rattle.tpol_write.specs.Laws.{StandsAlone};
ghost use Rattle.tpol_write.specs.Levels.{levels_of_elements};
ghost use Rattle.tpol_write.specs.Objects.{list_of};

use crate::draft::Draft;
use crate::elements::write_elements;
use crate::members::{put_bytes, put_digest, put_text};
use crate::rows::end_typed;
use crate::wishes::{put_index, put_key};
use std::alloc::Global;
use tpol_base::{Blob, Digest32, NoMemory};
use tpol_tree::{ApprovalWish, IndexWish, KeyWish, Policy};

/// The canonical text of a policy: the text without spaces of its JSON value, with members in ascending byte
/// order of their names. Every member that the policy keeps is written but an absent `cpHashA` and an empty list of
/// authorizations: no `policyDigests` and no `approvedPolicy`. The types of elements are in upper case with `POLICY`,
/// that of a key's public area is `KEYEDHASH`, those of authorizations are `tpm` and `nv`; bytes are lower-case
/// hexadecimal text. PCRs with values stand in the policy's own order, which rises in a policy that was read, and
/// current PCRs in rising order.
pub fn write_policy(alloc: Global, policy: &Policy) -> Result<Blob, NoMemory>
    ensures text { IfOk result (λ text. text ≡ canonical_text policy.now) }
    // With sixteen ORs inside one another at most it is a document of just that value.
    ensures reads { IfOk result (λ text. levels_of_elements policy.now.elements ≤ 16
        → document_of text ≡ Some (policy_value policy.now)) }
    // It reads back: it stands for the policy without a note, if any document stands for the policy.
    ensures stands { IfOk result (λ text. StandsAlone text policy.now) }
{
    write_policy_in(Vec::with_capacity(alloc, 4096)?, alloc, policy)
}

/// The same, written into this memory, which grows where it is too small. What it holds is lost.
pub fn write_policy_in(room: Vec<u8>, alloc: Global, policy: &Policy) -> Result<Blob, NoMemory>
    ensures text { IfOk result (λ text. text ≡ canonical_text policy.now) }
    ensures reads { IfOk result (λ text. levels_of_elements policy.now.elements ≤ 16
        → document_of text ≡ Some (policy_value policy.now)) }
    ensures stands { IfOk result (λ text. StandsAlone text policy.now) }
{
    let mut draft = Draft::new(room);
    write_document(&mut draft, alloc, policy)?;
    Ok(draft.into_blob())
}

#[tactic(auto, unfolding(crate::specs::Canonical::policy_value))]
fn write_document(draft: &mut Draft, alloc: Global, policy: &Policy) -> Result<(), NoMemory>
    ensures tokens { OnOk result (Adds draft.old draft.new (tokens_of (policy_value policy.now))) }
    ensures reads { OnOk result (Reads (policy_value policy.now)) }
{
    draft.begin_object()?;
    put_text(draft, "description", &policy.description)?;
    draft.name("policy")?;
    draft.begin_list()?;
    write_elements(draft, alloc, &policy.elements)?;
    draft.end_list()?;
    put_approvals(draft, alloc, policy.approvals.as_slice())?;
    draft.end_object()
}

fn put_approvals(
    draft: &mut Draft,
    alloc: Global,
    approvals: &[ApprovalWish],
) -> Result<(), NoMemory>
    ensures tokens { OnOk result
        (Adds draft.old draft.new (members_tokens (approvals_members approvals.now))) }
    ensures reads { OnOk result (AllMembersRead (approvals_members approvals.now)) }
{
    if approvals.is_empty() {
        return Ok(());
    }
    draft.name("policyAuthorizations")?;
    write_approvals(draft, alloc, approvals)
}

fn write_approvals(
    draft: &mut Draft,
    alloc: Global,
    approvals: &[ApprovalWish],
) -> Result<(), NoMemory>
    ensures tokens { OnOk result
        (Adds draft.old draft.new (tokens_of (list_of (map approval_value approvals.now)))) }
    ensures reads { OnOk result (Reads (list_of (map approval_value approvals.now))) }
{
    draft.begin_list()?;
    for approval in approvals {
        write_approval(draft, alloc, approval)?;
    }
    draft.end_list()
}

fn write_approval(draft: &mut Draft, alloc: Global, approval: &ApprovalWish) -> Result<(), NoMemory>
    ensures tokens { OnOk result
        (Adds draft.old draft.new (tokens_of (approval_value approval.now))) }
    ensures reads { OnOk result (Reads (approval_value approval.now)) }
{
    match approval {
        ApprovalWish::ByKey {
            key,
            policy_ref,
            signature,
        } => by_key(draft, alloc, key, policy_ref, signature),
        ApprovalWish::ByIndex { index } => by_index(draft, alloc, index),
    }
}

fn by_key(
    draft: &mut Draft,
    alloc: Global,
    key: &KeyWish,
    policy_ref: &Blob,
    signature: &Digest32,
) -> Result<(), NoMemory>
    ensures tokens { OnOk result (Adds draft.old draft.new
        (tokens_of (approval_value (ByKey key.now policy_ref.now signature.now)))) }
    ensures reads { OnOk result
        (Reads (approval_value (ByKey key.now policy_ref.now signature.now))) }
{
    draft.begin_object()?;
    put_key(draft, alloc, key)?;
    put_bytes(draft, alloc, "policyRef", policy_ref)?;
    put_digest(draft, alloc, "signature", signature)?;
    end_typed(draft, "tpm")
}

fn by_index(draft: &mut Draft, alloc: Global, index: &IndexWish) -> Result<(), NoMemory>
    ensures tokens { OnOk result
        (Adds draft.old draft.new (tokens_of (approval_value (ByIndex index.now)))) }
    ensures reads { OnOk result (Reads (approval_value (ByIndex index.now))) }
{
    draft.begin_object()?;
    put_index(draft, alloc, index)?;
    end_typed(draft, "nv")
}
