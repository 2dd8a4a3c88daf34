//! What is wrong in a scene, and the refusal of a part of it.

use tpol_json::{Fault, Includes, MemberKind};

/// What is wrong in a scene.
#[derive(Clone, Copy, Debug, PartialEq, Eq)]
pub enum SceneKind {
    /// A member that is needed is not there.
    Missing,
    /// A value of another JSON kind than its member has.
    WrongKind,
    /// Bytes that are not written in hexadecimal, or of a wrong length.
    BadHex,
    /// A number outside its limits, or another text in its place.
    BadNumber,
    /// A kind that no entity has, an event that no script has, or a command that no goal has.
    UnknownKind,
    /// A path, a handle, a PCR, a client, a grant or a run a second time, or `authPolicy` with `policy`.
    Twice,
    /// An entity past the 256th, a client past the 64th, an event past the 4,096th, or a run past the 256th.
    TooMany,
    /// Attributes, a size or a content that no index has.
    BadState,
    /// A path that no entity has that may stand there.
    NoSuchPath,
    /// A client that is not listed.
    NoSuchClient,
    /// A run that was not begun before.
    NoSuchRun,
    /// An entity or a run names a policy that is not there. No reading gives this kind: it is for the layer
    /// that looks up the policies that are named, behind all faults of the reading.
    NoSuchPolicy,
}

/// Why a part of a scene is refused: the first fault in reading order.
pub type PartFault = Fault<SceneKind>;

impl Includes<MemberKind> for SceneKind {
    ghost use Rattle.tpol_entities.specs.Faults.{kind_of};

    ghost kind_of = { kind_of };

    fn of_kind(kind: MemberKind) -> SceneKind {
        match kind {
            MemberKind::Missing => SceneKind::Missing,
            MemberKind::WrongKind => SceneKind::WrongKind,
            MemberKind::BadHex => SceneKind::BadHex,
            MemberKind::BadNumber => SceneKind::BadNumber,
            MemberKind::Twice => SceneKind::Twice,
            MemberKind::TooMany => SceneKind::TooMany,
        }
    }
}
