//! The digests of policies (TPM 2.0 Part 3, the policy commands), the ways through a policy, and the
//! strings that are hashed for it.
//!
//! The layers above cite the definitions of `specs/`: `Update`, what a move hashes, as data, from which the
//! digest, the strings and a `Term`, what is hashed as a tree, follow; `policy_digest` and `digest_of_moves`;
//! `paths_of`; `IsSound` and `IsWellFormed`. That all branches meet is the law `all_paths_meet`, of every path of a
//! policy; `path_at` says it of the one that it makes.
#![tactic(auto)]

mod approval;
mod assertion;
mod at_position;
mod command_code;
mod counting;
mod extent;
mod inputs;
mod laws;
mod limits;
mod memo;
mod moves;
mod own_extent;
mod pieces;
mod policy;
mod update;
mod update_bytes;

pub use approval::{accepts, is_by_index, signature_of_key};
pub use assertion::extend;
pub use at_position::{has_or, path_at, path_at_with_memo};
pub use inputs::{inputs_of, inputs_of_facts};
pub use laws::{all_paths_meet, boxes_are_ignored, paths_have_bounds, paths_have_pcr_digests};
pub use limits::{
    MAX_LEVELS, PathLimit, check_paths, count_element_ways, count_paths, count_ways,
    count_ways_with_memo,
};
pub use memo::{Before, BeforeBranches, BranchMemos, Memo, memo_of};
pub use moves::{digest_after_move, run_facts, run_path};
pub use policy::{
    approve_digest, approve_nv_digest, digest_after_element, digest_after_elements, digest_of,
    or_digest, push_branch_digests, zero_digest,
};
pub use update::hash_twice;
pub use update_bytes::{
    UpdateBytes, update_of_approve, update_of_approve_nv, update_of_assertion, update_of_move,
    update_of_or,
};
