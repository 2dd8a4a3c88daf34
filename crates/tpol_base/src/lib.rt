//! Small types that every crate of fapipol uses, the numbers of TPM 2.0 Part 2 under their names there, and
//! the three traits of the outside: where a document comes from, where lines go, and where documents are
//! kept.
//!
//! Contracts above see a `Sequence` as a list, a `Text` as its bytes, and an object of the outside by two
//! things: what it tells of its content, and the count of its faults, which never falls. A call of the
//! outside answers `Failed` only where that count rose in the call, or stands at its last value, 2^64 - 1.
#![tactic(auto)]

pub mod attributes;
mod check;
mod command_code;
mod compare;
pub mod constants;
mod cursor;
mod digest;
mod document;
mod exact_clone;
mod failing;
mod flag;
mod folder_files;
mod folder_shelf;
pub mod handle;
mod memory_shelf;
mod memory_source;
mod name;
mod no_memory;
mod outside;
pub mod pcr;
mod policy_name;
mod rc;
pub mod response_code;
mod sequence;
mod std_sink;
mod std_source;
mod text;
mod trailing_zeros;

pub use check::Check;
pub use command_code::{CommandCode, command_codes, command_name};
pub use compare::Compare;
pub use cursor::Cursor;
pub use digest::Digest32;
pub use document::Document;
pub use exact_clone::ExactClone;
pub use failing::Failing;
pub use flag::yes_no;
pub use folder_shelf::FolderShelf;
pub use handle::HandleKind;
pub use memory_shelf::{MemoryShelf, most_handed_out};
pub use memory_source::MemorySource;
pub use name::{Name, NameBytes};
pub use no_memory::NoMemory;
pub use outside::{Failed, Lapse, Shelf, Sink, Source};
pub use policy_name::{is_policy_name, without_folder};
pub use rc::Rc;
pub use sequence::Sequence;
pub use std_sink::StdSink;
pub use std_source::StdSource;
pub use text::Text;
pub use trailing_zeros::without_trailing_zeros;

/// Bytes; contracts see the list of them.
pub type Blob = Sequence<u8>;

/// A list of texts.
pub type Texts = Sequence<Text>;

/// A list of SHA-256 digests.
pub type Digests = Sequence<Digest32>;
