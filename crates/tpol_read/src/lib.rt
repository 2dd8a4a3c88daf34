//! Policy documents: elements, ORs, authorizations and their limits. `read_policy` gives the policy that bytes
//! stand for with notes on unknown members, or the first fault in reading order.
#![tactic(auto)]

mod approvals;
mod document;
mod elements;
mod lists;
mod members;

pub use document::read_policy;
pub use tpol_json::Notes;
pub use tpol_members::{PolicyFault, PolicyKind};
