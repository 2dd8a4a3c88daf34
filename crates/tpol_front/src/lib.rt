//! The front of a program: its words, its source, its sink and its shelf.
//!
//! A program says by an `impl Command` what its words ask for and what each command has to say, as an answer: lines
//! and a verdict. `run_program` reads the words, then the source, lets the command answer, and prints that. No command
//! sees the source or the sink. What a run prints, answers and leaves on the shelf is `report_of`, a definition over
//! the program's `Commands`; what it does with source and shelf is `AsksSource` and `UsesShelf`. `number_of_word` reads
//! a number among the words.
#![tactic(auto)]

mod answers;
mod command;
mod input;
mod numbers;
mod print;
mod program;
mod status;

pub use command::Command;
pub use numbers::number_of_word;
pub use program::run_program;
pub use status::Status;
