// The digest before an approved document.

ghost use Rattle.std.specs.List.{slice_get};
ghost use Rattle.std.specs.Prelude.{◌≡◌, ◌<◌, Some, length};
ghost use Rattle.tpol_choose.specs.Kept.{KnowsApproved};
ghost use Rattle.tpol_digest.specs.Digest.{zero_digest as no_digest};
ghost use Rattle.tpol_digest.specs.Memos.{Knows};
ghost use Rattle.tpol_tree.specs.declared.path.ApprovedDoc.{ApprovedDoc as OneApproved};

use crate::walk::Walk;
use tpol_digest::{Before, zero_digest};

impl<'c, 'a> Walk<'c, 'a> {
    // The digest before the policy of the approved document at this index, with the digests of the policy, where they
    // are kept.
    pub fn start_of(&self, index: usize) -> Before<'a>
        requires kept { KnowsApproved self.now }
        requires inside { index < length self.now.approvals.now }
        ensures digest { result.digest ≡ no_digest }
        ensures knows { (document : OneApproved)
            → slice_get self.now.approvals.now index ≡ Some document
            → Knows result document.closed.elements }
    {
        match self.memos {
            Some(memos) => Before::start(&memos[index]),
            None => Before::without_memo(zero_digest()),
        }
    }
}
