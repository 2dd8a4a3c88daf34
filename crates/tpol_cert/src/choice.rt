// The choices on a path.

ghost use Rattle.std.specs.Prelude.{◌≡◌, IsTrue};
ghost use Rattle.tpol_cert.specs.Choices.{same_choice};

use tpol_base::Sequence;

/// One choice on a path, by its number from 1 among those that there are.
#[derive(Clone, Copy, PartialEq, Eq)]
pub enum Choice {
    /// A branch of an OR: its place among the branches of that OR.
    Branch(u32),
    /// An approved document: the place of its approval among those that the AUTHORIZE or AUTHORIZENV accepts, in the
    /// order of the approvals. A document that was approved twice for it counts twice.
    Document(u32),
    /// A policy that no listed document has.
    Outside,
}

impl Choice {
    // Whether this is that choice.
    pub(crate) fn is_same(self, other: Choice) -> bool
        ensures test { result ≡ same_choice self other }
        ensures same { IsTrue result → self ≡ other }
    {
        match self {
            Choice::Branch(number) => matches!(other, Choice::Branch(wanted) if wanted == number),
            Choice::Document(number) => {
                matches!(other, Choice::Document(wanted) if wanted == number)
            }
            Choice::Outside => matches!(other, Choice::Outside),
        }
    }
}

/// Choices in order.
pub type Choices = Sequence<Choice>;
