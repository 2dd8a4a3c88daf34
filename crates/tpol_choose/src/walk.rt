use crate::client::Client;
use tpol_digest::Memo;
use tpol_tree::ApprovedDoc;

// What a policy is walked with: who walks it, and the approved documents, which may be entered `levels` deep, with
// the digests of each, where they are kept.
#[derive(Clone, Copy)]
pub struct Walk<'c, 'a> {
    pub client: &'c Client<'a>,
    pub approvals: &'a [ApprovedDoc],
    pub memos: Option<&'a [Memo]>,
    pub levels: u8,
}
