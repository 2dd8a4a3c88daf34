// What a list of elements begins with.

ghost use Rattle.tpol_choose.specs.Leads.{IsLead};
ghost use Rattle.tpol_digest.specs.Memos.{Knows};

use crate::assert_move::AssertMove;
use tpol_digest::Before;
use tpol_tree::{ClosedElement, ClosedElements};

// An assertion that a list begins with, if it does, made to a move, and the rest of the list with the digest
// before that rest.
#[derive(Clone, Copy)]
pub struct Lead<'a> {
    pub first: Option<AssertMove<'a>>,
    pub rest: &'a ClosedElements,
    pub before: Before<'a>,
}

impl<'a> Lead<'a> {
    // That of a list with the digest before it.
    pub fn of(elements: &'a ClosedElements, before: Before<'a>) -> Lead<'a>
        requires knows { Knows before elements.now }
        ensures lead { IsLead result elements.now before.entry.digest }
        ensures knows { Knows result.before result.rest.now }
    {
        match elements {
            ClosedElements::End => Lead::without(elements, before),
            ClosedElements::More(element, rest) => match &**element {
                ClosedElement::Assert(assertion) => {
                    let after = before.behind(element, rest);
                    let step = AssertMove::with_after(assertion, before.digest, after.digest);
                    Lead {
                        first: Some(step),
                        rest: &**rest,
                        before: after,
                    }
                }
                _ => Lead::without(elements, before),
            },
        }
    }

    // That of a list of which nothing is made to a move.
    fn without(elements: &'a ClosedElements, before: Before<'a>) -> Lead<'a>
        requires knows { Knows before elements.now }
        ensures lead { IsLead result elements.now before.entry.digest }
        ensures knows { Knows result.before result.rest.now }
    {
        Lead {
            first: None,
            rest: elements,
            before,
        }
    }
}
