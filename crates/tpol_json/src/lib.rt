//! JSON values with places. The readers of policies and of scenes stand on it: bytes, whole numbers
//! and words are read here, and each fault has the place where it stands.
#![tactic(auto)]

mod bytes;
mod document;
mod fault;
mod members;
mod numbers;
mod place;
mod place_ref;
mod spelling;
mod truth_values;
mod values;
mod words;

pub use bytes::bytes_of;
pub use document::{ParseFault, parse};
pub use fault::{Fault, Includes, JsonFault, JsonKind, MemberFault, MemberKind, refuse};
pub use members::{check_limit, items, member, needed, note_unknown, without};
pub use numbers::number_of;
pub use place::{Notes, Place, PlaceStep, PlaceSteps};
pub use place_ref::PlaceRef;
pub use spelling::{place_text, push_quoted, quoted};
pub use values::{
    any_bytes, bytes_up_to, check_object, digest, empty_or_32, name, signed_32, text, truth,
    unsigned, unsigned_32,
};
pub use words::{same_word, word, word_in};
