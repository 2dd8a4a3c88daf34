//! Approved documents.

ghost use Rattle.std.specs.Prelude.{◌≡◌, ◌++◌, All, IfOk, IfSome, OnOk, map};
ghost use Rattle.std.specs.Option.{option_copied, option_map, option_to_list};
ghost use Rattle.tpol_fill.specs.Forms.{IsFilledApproval};
ghost use Rattle.tpol_store.specs.Approvals.{HasApprovedBounds, approved_by, approved_document, approved_documents, approved_in, approver};
ghost use Rattle.tpol_store.specs.Stores.{IsReadable, policies_of, stored};
ghost use Rattle.tpol_tree.specs.Bounds.{HasClosedBounds};
ghost use Rattle.tpol_tree.specs.ClosedErased.{erased_document};
ghost use Rattle.tpol_tree.specs.Erased.{erased_policy};

use crate::compiled::{CompiledApproval, CompiledApprovals};
use crate::{Store, StoredPolicy};
use std::alloc::Global;
use tpol_base::{ExactClone, NoMemory};
use tpol_digest::{digest_of, memo_of, zero_digest};
use tpol_fill::{FillFault, fill, name_of_index, name_of_key};
use tpol_name::Sight;
use tpol_tree::{ApprovalWish, Approvals, ApprovedBy, ApprovedDoc, Closed};

impl Store {
    /// The documents that are approved, in the order of the store, and each by its authorizations in the
    /// order of the document (TPM 2.0 Part 3, PolicyAuthorize and PolicyAuthorizeNV): each with the policy
    /// that is filled with the sight, and that policy's digest. A document that cannot be filled is not
    /// approved, nor does an authorization approve whose key or index has no value.
    pub fn approvals(&self, alloc: Global, sight: Option<&Sight>) -> Result<Approvals, NoMemory>
        ensures documents { IfOk result (λ approvals.
            map erased_document approvals
            ≡ approved_documents (policies_of self.now) (option_copied sight.entry)) }
        ensures form { All IsReadable (stored self.now) → IfOk result (All IsFilledApproval) }
        ensures bounded { All IsReadable (stored self.now) → IfOk result (All HasApprovedBounds) }
    {
        let mut approvals = Approvals::new(alloc);
        for document in self.documents() {
            push_approved(alloc, document, sight, &mut approvals)?;
        }
        Ok(approvals)
    }

    /// The same as `approvals`, with the digests of each document, of which its policy's digest is the last.
    pub fn compiled_approvals(
        &self,
        alloc: Global,
        sight: Option<&Sight>,
    ) -> Result<CompiledApprovals, NoMemory>
        ensures documents { IfOk result (λ approvals.
            map erased_document approvals
            ≡ approved_documents (policies_of self.now) (option_copied sight.entry)) }
        ensures form { All IsReadable (stored self.now) → IfOk result (All IsFilledApproval) }
        ensures bounded { All IsReadable (stored self.now) → IfOk result (All HasApprovedBounds) }
    {
        let mut approvals = CompiledApprovals::new(alloc);
        for document in self.documents() {
            push_compiled(alloc, document, sight, &mut approvals)?;
        }
        Ok(approvals)
    }
}

// What a document's authorizations approve, behind what is approved so far.
fn push_approved(
    alloc: Global,
    document: &StoredPolicy,
    sight: Option<&Sight>,
    approvals: &mut Approvals,
) -> Result<(), NoMemory>
    ensures documents { OnOk result (map erased_document approvals.new
        ≡ map erased_document approvals.old
        ++ approved_in document.now.name (erased_policy document.now.policy)
        (option_copied sight.entry)) }
    ensures form { IsReadable document.now → All IsFilledApproval approvals.old
        → OnOk result (All IsFilledApproval approvals.new) }
    ensures bounded { IsReadable document.now → All HasApprovedBounds approvals.old
        → OnOk result (All HasApprovedBounds approvals.new) }
{
    for wish in document.policy.approvals.as_slice() {
        let found = approved_by(alloc, document, wish, sight)?;
        push_found(approvals, found)?;
    }
    Ok(())
}

fn push_found(approvals: &mut Approvals, found: Option<ApprovedDoc>) -> Result<(), NoMemory>
    ensures documents { OnOk result (map erased_document approvals.new
        ≡ map erased_document approvals.old ++ map erased_document (option_to_list found)) }
    ensures form { IfSome found IsFilledApproval → All IsFilledApproval approvals.old
        → OnOk result (All IsFilledApproval approvals.new) }
    ensures bounded { IfSome found HasApprovedBounds → All HasApprovedBounds approvals.old
        → OnOk result (All HasApprovedBounds approvals.new) }
{
    match found {
        Some(approved) => approvals.push(approved),
        None => Ok(()),
    }
}

// What a document's authorizations approve, with their digests, behind what is approved so far.
fn push_compiled(
    alloc: Global,
    document: &StoredPolicy,
    sight: Option<&Sight>,
    approvals: &mut CompiledApprovals,
) -> Result<(), NoMemory>
    ensures documents { OnOk result (map erased_document approvals.new
        ≡ map erased_document approvals.old
        ++ approved_in document.now.name (erased_policy document.now.policy)
        (option_copied sight.entry)) }
    ensures form { IsReadable document.now → All IsFilledApproval approvals.old
        → OnOk result (All IsFilledApproval approvals.new) }
    ensures bounded { IsReadable document.now → All HasApprovedBounds approvals.old
        → OnOk result (All HasApprovedBounds approvals.new) }
{
    for wish in document.policy.approvals.as_slice() {
        let found = compiled_by(alloc, document, wish, sight)?;
        push_kept(approvals, found)?;
    }
    Ok(())
}

fn push_kept(
    approvals: &mut CompiledApprovals,
    found: Option<CompiledApproval>,
) -> Result<(), NoMemory>
    ensures documents { OnOk result (map erased_document approvals.new
        ≡ map erased_document approvals.old ++ map erased_document (option_to_list found)) }
    ensures form { IfSome found IsFilledApproval → All IsFilledApproval approvals.old
        → OnOk result (All IsFilledApproval approvals.new) }
    ensures bounded { IfSome found HasApprovedBounds → All HasApprovedBounds approvals.old
        → OnOk result (All HasApprovedBounds approvals.new) }
{
    match found {
        Some(approval) => approvals.push(approval),
        None => Ok(()),
    }
}

// What one authorization approves.
fn approved_by(
    alloc: Global,
    document: &StoredPolicy,
    wish: &ApprovalWish,
    sight: Option<&Sight>,
) -> Result<Option<ApprovedDoc>, NoMemory>
    ensures documents { IfOk result (λ found. map erased_document (option_to_list found)
        ≡ approved_by document.now.name (erased_policy document.now.policy)
        (option_copied sight.entry) wish.now) }
    ensures form { IsReadable document.now → IfOk result (λ found. IfSome found IsFilledApproval) }
    ensures bounded { IsReadable document.now
        → IfOk result (λ found. IfSome found HasApprovedBounds) }
{
    match filled_by(alloc, document, wish, sight)? {
        Some((by, closed)) => {
            let digest = digest_of(&closed);
            Ok(Some(ApprovedDoc {
                document: document.name.exact_clone()?,
                by,
                closed,
                digest,
            }))
        }
        None => Ok(None),
    }
}

// What one authorization approves, with its digests.
fn compiled_by(
    alloc: Global,
    document: &StoredPolicy,
    wish: &ApprovalWish,
    sight: Option<&Sight>,
) -> Result<Option<CompiledApproval>, NoMemory>
    ensures documents { IfOk result (λ found. map erased_document (option_to_list found)
        ≡ approved_by document.now.name (erased_policy document.now.policy)
        (option_copied sight.entry) wish.now) }
    ensures form { IsReadable document.now → IfOk result (λ found. IfSome found IsFilledApproval) }
    ensures bounded { IsReadable document.now
        → IfOk result (λ found. IfSome found HasApprovedBounds) }
{
    match filled_by(alloc, document, wish, sight)? {
        Some((by, closed)) => {
            let memo = memo_of(alloc, &closed)?;
            let approved = ApprovedDoc {
                document: document.name.exact_clone()?,
                by,
                closed,
                digest: memo.last(zero_digest()),
            };
            Ok(Some(CompiledApproval::new(approved, memo)))
        }
        None => Ok(None),
    }
}

// Who approves by one authorization, and the policy that is filled, if there is a value for each.
#[tactic(auto, using(crate::proofs::ApprovedErased::approved_by_erased))]
fn filled_by(
    alloc: Global,
    document: &StoredPolicy,
    wish: &ApprovalWish,
    sight: Option<&Sight>,
) -> Result<Option<(ApprovedBy, Closed)>, NoMemory>
    ensures documents { IfOk result (λ found. map erased_document
        (option_to_list (option_map (λ f. approved_document document.now.name f.1 f.0) found))
        ≡ approved_by document.now.name (erased_policy document.now.policy)
        (option_copied sight.entry) wish.now) }
    ensures form { IsReadable document.now → IfOk result (λ found. IfSome found
        (λ f. IsFilledApproval (approved_document document.now.name f.1 f.0))) }
    ensures bounded { IsReadable document.now
        → IfOk result (λ found. IfSome found (λ f. HasClosedBounds f.1)) }
{
    filled_as_it_lies(alloc, document, wish, sight)
}

// The policy is filled for each authorization, since each approved document owns its tree.
#[tactic(auto, unfolding(crate::specs::Approvals::approved_by))]
fn filled_as_it_lies(
    alloc: Global,
    document: &StoredPolicy,
    wish: &ApprovalWish,
    sight: Option<&Sight>,
) -> Result<Option<(ApprovedBy, Closed)>, NoMemory>
    ensures documents { IfOk result (λ found. map erased_document
        (option_to_list (option_map (λ f. approved_document document.now.name f.1 f.0) found))
        ≡ approved_by document.now.name document.now.policy (option_copied sight.entry) wish.now) }
    ensures form { IsReadable document.now → IfOk result (λ found. IfSome found
        (λ f. IsFilledApproval (approved_document document.now.name f.1 f.0))) }
    ensures bounded { IsReadable document.now
        → IfOk result (λ found. IfSome found (λ f. HasClosedBounds f.1)) }
{
    let Some(by) = approver(wish, sight)? else {
        return Ok(None);
    };
    match fill(alloc, &document.policy, sight) {
        Ok(closed) => Ok(Some((by, closed))),
        Err(FillFault::Bad { .. }) => Ok(None),
        Err(FillFault::NoMemory) => Err(NoMemory),
    }
}

// The key or the index of an authorization, by its Name; `None` where it has no value.
fn approver(wish: &ApprovalWish, sight: Option<&Sight>) -> Result<Option<ApprovedBy>, NoMemory>
    ensures { IfOk result (λ by. by ≡ approver wish.now (option_copied sight.entry)) }
{
    match wish {
        ApprovalWish::ByKey {
            key,
            policy_ref,
            signature,
        } => match name_of_key(key, sight) {
            Some(key) => Ok(Some(ApprovedBy::Key {
                key,
                policy_ref: policy_ref.exact_clone()?,
                signature: *signature,
            })),
            None => Ok(None),
        },
        ApprovalWish::ByIndex { index } => match name_of_index(index, sight) {
            Some(index) => Ok(Some(ApprovedBy::Index { index })),
            None => Ok(None),
        },
    }
}
