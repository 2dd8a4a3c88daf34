//! The store: the policy documents of a shelf, and which of them an approval brings in.
//!
//! `Store::load` reads a shelf's documents, `Store::approvals` lists those that a key or an index approves,
//! `Store::compiled_approvals` the same with their digests, and `put_policy` puts a policy's canonical text on the
//! shelf.
#![tactic(auto)]

mod approvals;
mod compiled;
mod fault;
mod file_name;
mod load;
mod put;
mod store;

pub use compiled::CompiledApprovals;
pub use fault::StoreFault;
pub use load::MAX_DOCUMENTS;
pub use put::put_policy;
pub use store::{Store, StoredPolicy};
