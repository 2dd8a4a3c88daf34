//! The text of the lines that the program prints: of a policy's paths, of a machine's events, of runs, of
//! openings, and of their certificates.
//!
//! Each line is a definition over what it tells, without its line end, and `Lines::push_line` adds it to the lines
//! with that; `push_command_line` and `push_block_line` add theirs themselves. `path_lines` is the list of all
//! lines of a policy's paths; `write_paths` writes it on one walk through the policy and holds no path, and `labels`
//! the choices of each path alone. `label_at` gives those of one path, and `assertion_kind` the word for an
//! assertion's policy command.
#![tactic(auto)]

mod blocks;
mod certificates;
mod dead_paths;
mod decimal;
mod events;
mod generated;
mod hexadecimal;
mod kinds;
mod lines;
mod names;
mod one_label;
mod openings;
mod path_label;
mod path_lines;
mod pen;
mod piece;
mod runs;
mod tried;

pub use blocks::push_block_line;
pub use certificates::{certificate_line, certified_line};
pub use dead_paths::{dead_line_at, lint_line};
pub use events::{presence_line, push_command_line, reset_line, time_line};
pub use generated::{command_count_line, generated_line, path_count_line};
pub use kinds::assertion_kind;
pub use lines::Lines;
pub use one_label::label_at;
pub use openings::opening_line;
pub use path_label::label;
pub use path_lines::{labels, write_paths};
pub use runs::{blind_line, chosen_line, end_line, nobranch_line, over_line};
pub use tried::tried_line;
