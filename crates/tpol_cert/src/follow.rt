// The path that choices lead to, found along the choices. No path is listed, and nothing is hashed.

ghost use Rattle.std.specs.Prelude.{◌≡◌, ◌∷◌, ◌≤◌, IfErr, IfNone, IfOk, IfSome, length};
ghost use Rattle.tpol_cert.specs.Choices.{approval_choices, branch_choices, element_choices, element_list_choices};
ghost use Rattle.tpol_cert.specs.Following.{IsStray, Leads, Misses};
ghost use Rattle.tpol_cert.specs.declared.follow.Stray.TheVariants as strays;

use crate::Choice;
use crate::walk::{Scope, next_number};
use tpol_base::NoMemory;
use tpol_digest::{accepts, count_element_ways, count_ways};
use tpol_tree::{ClosedBranches, ClosedElement, ClosedElements};

// A way that steps lead to: its index among those of a part, from 0, and the steps behind it.
#[derive(Clone, Copy)]
pub struct Led<'a> {
    pub index: u64,
    pub left: &'a [Choice],
}

// Why steps lead to no way.
#[derive(Clone, Copy)]
pub enum Stray<'a> {
    // These are left from the first on that names no choice.
    At(&'a [Choice]),
    NoMemory,
}

impl From<NoMemory> for Stray<'_> {
    ghost from_gives = { λ _ stray. stray ≡ strays.NoMemory };

    fn from(_: NoMemory) -> Self {
        Stray::NoMemory
    }
}

// Follows steps through elements, which have `count` ways.
#[cycle(follow)]
pub fn follow_elements<'a>(
    scope: &Scope<'_>,
    elements: &ClosedElements,
    count: u64,
    steps: &'a [Choice],
) -> Result<Led<'a>, Stray<'a>>
    requires counted { count ≡ length
        (element_list_choices scope.now.approvals.now scope.now.levels elements.now) }
    requires few { count ≤ 65536 }
    ensures leads { IfOk result
        (λ led. Leads (element_list_choices scope.now.approvals.now scope.now.levels elements.now)
        steps.now led.index led.left.now) }
    ensures strays { IfErr result
        (λ stray. IsStray (element_list_choices scope.now.approvals.now scope.now.levels
        elements.now) steps.now stray) }
{
    match elements {
        ClosedElements::End => Ok(Led {
            index: 0,
            left: steps,
        }),
        ClosedElements::More(element, rest) => {
            if count == 0 {
                return Err(Stray::At(steps));
            }
            let ways = count_element_ways(scope.approvals, scope.levels, element);
            let behind = count / ways;
            let first = follow_element(scope, element, steps)?;
            let second = follow_elements(scope, rest, behind, first.left)?;
            Ok(Led {
                index: first.index * behind + second.index,
                left: second.left,
            })
        }
    }
}

// Follows steps through one element.
#[cycle(follow)]
fn follow_element<'a>(
    scope: &Scope<'_>,
    element: &ClosedElement,
    steps: &'a [Choice],
) -> Result<Led<'a>, Stray<'a>>
    requires few { length (element_choices scope.now.approvals.now scope.now.levels element.now)
        ≤ 65536 }
    ensures leads { IfOk result
        (λ led. Leads (element_choices scope.now.approvals.now scope.now.levels element.now)
        steps.now led.index led.left.now) }
    ensures strays { IfErr result
        (λ stray. IsStray (element_choices scope.now.approvals.now scope.now.levels element.now)
        steps.now stray) }
{
    match element {
        ClosedElement::Assert(_) => Ok(Led {
            index: 0,
            left: steps,
        }),
        ClosedElement::Or(branches) => follow_branch(scope, branches, 1, steps),
        ClosedElement::Authorize { .. } | ClosedElement::AuthorizeNv { .. } => {
            follow_approval(scope, element, steps)
        }
    }
}

// Follows steps through branches from a position on.
#[cycle(follow)]
fn follow_branch<'a>(
    scope: &Scope<'_>,
    branches: &ClosedBranches,
    position: u32,
    steps: &'a [Choice],
) -> Result<Led<'a>, Stray<'a>>
    requires few { length (branch_choices scope.now.approvals.now scope.now.levels branches.now
        position) ≤ 65536 }
    ensures leads { IfOk result
        (λ led. Leads (branch_choices scope.now.approvals.now scope.now.levels branches.now
        position) steps.now led.index led.left.now) }
    ensures strays { IfErr result
        (λ stray. IsStray (branch_choices scope.now.approvals.now scope.now.levels branches.now
        position) steps.now stray) }
{
    match branches {
        ClosedBranches::End => Err(Stray::At(steps)),
        ClosedBranches::More(branch, others) => {
            let elements = &branch.policy.elements;
            let count = count_ways(scope.approvals, scope.levels, elements);
            match behind(steps, Choice::Branch(position)) {
                Some(rest) => {
                    if count == 0 {
                        return Err(Stray::At(steps));
                    }
                    follow_elements(scope, elements, count, rest)
                }
                None => {
                    let next = next_number(position)?;
                    let led = follow_branch(scope, others, next, steps)?;
                    Ok(Led {
                        index: count + led.index,
                        left: led.left,
                    })
                }
            }
        }
    }
}

// Follows steps through an element that asks for an approval.
#[cycle(follow)]
fn follow_approval<'a>(
    scope: &Scope<'_>,
    element: &ClosedElement,
    steps: &'a [Choice],
) -> Result<Led<'a>, Stray<'a>>
    requires few { length (approval_choices scope.now.approvals.now scope.now.levels element.now)
        ≤ 65536 }
    ensures leads { IfOk result
        (λ led. Leads (approval_choices scope.now.approvals.now scope.now.levels element.now)
        steps.now led.index led.left.now) }
    ensures strays { IfErr result
        (λ stray. IsStray (approval_choices scope.now.approvals.now scope.now.levels element.now)
        steps.now stray) }
{
    let mut passed = 0;
    if scope.levels > 0 {
        let inside = Scope {
            approvals: scope.approvals,
            levels: scope.levels - 1,
        };
        let mut number = 1;
        for document in scope.approvals {
            if accepts(element, document) {
                let elements = &document.closed.elements;
                let count = count_ways(scope.approvals, inside.levels, elements);
                if let Some(rest) = behind(steps, Choice::Document(number)) {
                    if count == 0 {
                        return Err(Stray::At(steps));
                    }
                    let led = follow_elements(&inside, elements, count, rest)?;
                    return Ok(Led {
                        index: passed + led.index,
                        left: led.left,
                    });
                }
                passed += count;
                number = next_number(number)?;
            }
        }
    }
    match behind(steps, Choice::Outside) {
        Some(rest) => Ok(Led {
            index: passed,
            left: rest,
        }),
        None => Err(Stray::At(steps)),
    }
}

// The steps behind the first, where the first is this choice.
fn behind<'a>(steps: &'a [Choice], choice: Choice) -> Option<&'a [Choice]>
    ensures taken { IfSome result (λ rest. steps.now ≡ choice ∷ rest.now) }
    ensures missed { IfNone result (Misses choice steps.now) }
{
    match steps {
        [] => None,
        [first, rest @ ..] => {
            if first.is_same(choice) {
                Some(rest)
            } else {
                None
            }
        }
    }
}
