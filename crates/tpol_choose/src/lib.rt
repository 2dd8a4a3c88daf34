//! The chooser: whether a client can go a path of a policy on a machine as a sight shows it, with what it is
//! granted, and the first path that it can.
//!
//! The layers above use `choose_with_memo`, for which the digests of the policy and of approved documents are kept, and
//! `blocks`. `choose` is the first with no digests kept; `can` and `block_at` ask of one path. Their clauses cite
//! `first_block`, the first thing that stands in the way of a path, and `chosen_path` over the list of all paths. In
//! `specs/` a path is judged by the rules of `tpm_rules`, over its earlier moves as the facts of a session; the code
//! keeps what they bind, merged, and makes no list of paths. Only `blocks` takes memory, for what it gives.
#![tactic(auto)]

mod act;
mod ahead;
mod answer;
mod approving;
mod assert_move;
mod at_position;
mod binding;
mod block;
mod block_list;
mod branch_digests;
mod choosing;
mod client;
mod commands;
mod demands;
mod entered;
mod entity_at;
mod goal;
mod goal_rules;
mod hashes;
mod indices;
mod keys;
mod lead;
mod moves;
mod one_path;
mod or_digests;
mod or_move;
mod searching;
mod selection;
mod session;
mod track;
mod walk;

pub use at_position::block_at;
pub use block::{Block, Why};
pub use block_list::blocks;
pub use choosing::{choose, choose_with_memo};
pub use one_path::can;
