//! Byte strings that are kept behind one another, so that none has memory of its own. The layers above take `push`,
//! `push_pieces`, and `keep`, which adds no text like the last one.
#![tactic(auto)]

#[cfg(test)]
mod tests;
mod texts;

pub use texts::Texts;
