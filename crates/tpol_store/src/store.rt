//! Stored policies.

ghost use Rattle.std.specs.Prelude.{◌≡◌, [], find};
ghost use Rattle.std.specs.Option.{option_copied};
ghost use Rattle.tpol_store.specs.Stores.{is_stored_as, policy_named, stored};

use std::alloc::Global;
use tpol_base::{Sequence, Text};
use tpol_tree::Policy;

/// A policy document of a shelf: its name without `.json`, and the policy that it stands for.
#[derive(Drop)]
pub struct StoredPolicy {
    pub name: Text,
    pub policy: Policy,
}

/// The policy documents of a shelf, in ascending byte order of their names without `.json`.
#[derive(Drop)]
pub struct Store {
    documents: Sequence<StoredPolicy>,
}

impl Store {
    /// The store without a document; it takes no memory.
    pub fn empty(alloc: Global) -> Store
        ensures documents { stored result ≡ [] }
    {
        Store {
            documents: Sequence::new(alloc),
        }
    }

    /// The store of these documents.
    pub(crate) fn of_documents(documents: Sequence<StoredPolicy>) -> Store
        ensures documents { stored result ≡ documents }
    {
        Store { documents }
    }

    /// The documents in order.
    pub fn documents(&self) -> &[StoredPolicy]
        ensures documents { result.now ≡ stored self.now }
    {
        self.documents.as_slice()
    }

    /// The policy of this name, which is without `.json`; `None` exactly where no document has it.
    pub fn find(&self, name: &str) -> Option<&Policy>
        ensures policy { option_copied result ≡ policy_named name.now (stored self.now) }
    {
        let document = find_document(self.documents.as_slice(), name)?;
        Some(&document.policy)
    }
}

fn find_document<'a>(documents: &'a [StoredPolicy], name: &str) -> Option<&'a StoredPolicy>
    ensures { option_copied result ≡ find (is_stored_as name.now) documents.now }
{
    documents
        .iter()
        .find(|document| document.name.as_str() == name)
}
