//! A TPM's NV indices: their contents, what may be read and written of them, and counters.
//!
//! The machine keeps an `NvTable`, which is filled when it is made, so that no later call takes memory but the copy
//! (`to_indices`). The rules of NV_Read, NV_Write and NV_Increment stand beside it as calls over one index, for what
//! judges them without a machine. Whether an entity authorizes the access is for the caller to ask first.
#![tactic(auto)]

mod contents;
mod rules;
mod table;

pub use rules::{check_read, check_write, next_count, written_count};
pub use table::NvTable;
