//! The steps that any command takes, and the answer or the refusal that ends it.
//!
//! A step gives a value, or ends the command by a `Halt`: with an `Answer` that tells the refusal, or because the
//! outside failed or memory ran out. The layers above take `read_document` for the document in the source,
//! `scene_of_bytes` for the scene in it, `named_scene` for a scene of the shelf, `load_store`
//! for the documents of the shelf, `fill_document` for a document with its references filled, `CompiledDocument::new`
//! for that one's digests, and `check_limits`, `check_documents` and `check_tried` for the paths of policies;
//! `bad_scene` for a refusal of what a scene names, `no_such_policy` and `bad_certificate` for those of a policy and
//! of a certificate that are checked, and `digest_line` and `note_line` for lines of several commands. What a step
//! gives is a definition in `specs/`, a `Step`, and a refusal is its first fault; contracts above compare the two by
//! `Answers`, and say by `IsInside` and `AsksShelf` what a call does with the outside.
#![tactic(auto)]

mod answer;
mod compiled;
mod filled;
mod halt;
mod limits;
mod lines;
mod read_step;
mod refusals;
mod same_policy;
mod scene_step;
mod store_step;

pub use answer::{Answer, Verdict};
pub use compiled::CompiledDocument;
pub use filled::{FilledDocument, fill_document};
pub use halt::Halt;
pub use limits::{check_documents, check_limits, check_tried};
pub use lines::{digest_line, note_line};
pub use read_step::read_document;
pub use refusals::{bad_certificate, bad_scene, no_such_policy};
pub use scene_step::{named_scene, scene_of_bytes};
pub use store_step::load_store;
