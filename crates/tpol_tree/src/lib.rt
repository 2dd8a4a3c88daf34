//! Policies as data: a policy as it is written (`Policy`), the same with every Name, digest and argument
//! given (`Closed`), the ways through it (`Path`), and what a session keeps of its policy commands (`Fact`).
//!
//! `Elements`, `Branches` and their closed forms lead back to themselves, so contracts see them as plain
//! data; every other list is a `Sequence`, which contracts see as a list.
#![tactic(auto)]

mod closed;
mod closed_clone;
mod facts;
mod path;
mod policy;
mod wishes;

pub use closed::{Assertion, Closed, ClosedBranch, ClosedBranches, ClosedElement, ClosedElements};
pub use facts::{Fact, Facts};
pub use path::{ApprovedBy, ApprovedDoc, Move, Path, PathStep};
pub use policy::{Branch, Branches, Element, Elements, Policy};
use tpol_base::{Digest32, Name, Sequence};
pub use wishes::{
    ApprovalWish, EntityWish, IndexWish, KeyWish, NamesWish, NvPublicText, ObjectPublicText,
    ParentWish, PcrWish,
};

/// A list of Names.
pub type Names = Sequence<Name>;

/// PCR numbers with their values, in rising order of numbers.
pub type PcrValues = Sequence<(u8, Digest32)>;

/// The authorizations of a policy document.
pub type ApprovalWishes = Sequence<ApprovalWish>;

/// The moves of a path.
pub type Moves = Sequence<Move>;

/// The choices of a path.
pub type PathSteps = Sequence<PathStep>;

/// A list of paths.
pub type Paths = Sequence<Path>;

/// Approved documents, in ascending byte order of their names, and then in the order of the document.
pub type Approvals = Sequence<ApprovedDoc>;
